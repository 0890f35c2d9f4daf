//! A call does nothing: its contract is the law, and is proved of all pools.
ghost use Rattle.std.specs.Prelude.{◌≡◌, List, []};
ghost use Rattle.pool_types.specs.Contents.{Contents};
ghost use Rattle.schema_changes.specs.Pools.{wire_changes};
ghost use Rattle.pool_changes.specs.Comparing.{changes};
ghost use Rattle.pool_changes.specs.declared.direction.Direction.{Direction};
ghost use Rattle.pool_changes.specs.declared.kinds.Level.TheVariants.{Wire};
ghost use Rattle.pool_changes.specs.Itself.{NothingIsTold};
ghost use Rattle.pool_changes.specs.Lost.{ChangeIsLost};
ghost use Rattle.pool_changes.specs.Laws.{Chains, FreshNumberIsKept, NoLossIsRead};
ghost use Rattle.pool_changes.specs.Laws.{UnchangedIsRead, UntoldIsKept, UntoldIsRead};
ghost use Rattle.pool_changes.specs.Laws.{UntoldIsUnchanged, UntoldMapsAreRead};

use descriptor_pool::DescriptorPool;

/// Where no change of two pools loses anything, what is written of a message by the old one's schema
/// is read by that of the new one, if it has a message of that name, with the same value of each
/// field that both have.
pub fn no_loss_is_read(old: &DescriptorPool, new: &DescriptorPool)
    ensures { NoLossIsRead old.now new.now }
{
    old.made();
    new.made();
}

/// Where nothing is told of two versions in a direction, at any level, what is written of a message
/// by the schema of the one that writes is read by that of the other, if it has a message of that
/// name, with the same value of each field that both have, and of each map with the same entry of
/// each key.
pub fn untold_is_read(old: &DescriptorPool, new: &DescriptorPool)
    ensures read { (d : Direction)
        → UntoldIsRead (record { direction = d; old = old.now; new = new.now }) }
    ensures maps { (d : Direction)
        → UntoldMapsAreRead (record { direction = d; old = old.now; new = new.now }) }
{
    old.made();
    new.made();
}

/// Where nothing is told backward, at any level, each message of the older version, but the entries
/// of maps, has one with its name in the new version, which reads what is written of it, with the same
/// value of each field that both have.
pub fn untold_is_kept(old: &DescriptorPool, new: &DescriptorPool)
    ensures { UntoldIsKept old.now new.now }
{
    old.made();
    new.made();
}

/// Where nothing is lost of a message and of those that it reaches, what is written of it by the
/// old pool's schema is read by that of the new one, if it has a message of that name, with the
/// same value of each field that both have.
pub fn unchanged_is_read(old: &DescriptorPool, new: &DescriptorPool)
    ensures { UnchangedIsRead old.now new.now }
{
    old.made();
    new.made();
}

/// Where nothing is told of each pool of a chain and the one before, what is written of a message by
/// the first one's schema is read by that of the last one, if each pool between has a message of that
/// name.
pub fn chains()
    ensures { (first : Contents) (later : List Contents) → Chains first later }
{}

/// Where nothing is told in a direction, at any level, no change of the two pools is told in it, and
/// backward there is none, which the other laws go by.
pub fn untold_is_unchanged(old: &DescriptorPool, new: &DescriptorPool)
    ensures told { (d : Direction)
        → UntoldIsUnchanged (record { direction = d; old = old.now; new = new.now }) }
    ensures backward { changes Wire old.now new.now ≡ [] → wire_changes old.now new.now ≡ [] }
{}

/// No pool changes anything of itself, and nothing is told of it and itself: at wire in either
/// direction, and at json and at source where no extension of a message has the number of one of its
/// fields.
pub fn keeps_itself(pool: &DescriptorPool)
    ensures unchanged { wire_changes pool.now pool.now ≡ [] }
    ensures untold { NothingIsTold pool.now }
{
    pool.made();
}

/// One more field changes nothing of a message, if no field and no extension of it has its number,
/// which is not reserved, and it is not required.
pub fn fresh_number_is_kept(pool: &DescriptorPool)
    ensures { FreshNumberIsKept pool.now }
{
    pool.made();
}

/// By each change of a message that is of scalar types, or of a field that is newly required,
/// something is lost: if the old pool's schema writes the message at all, it writes one that the new
/// one's does not read, or reads otherwise.
pub fn change_is_lost(old: &DescriptorPool, new: &DescriptorPool)
    ensures { ChangeIsLost old.now new.now }
{
    old.made();
    new.made();
}
