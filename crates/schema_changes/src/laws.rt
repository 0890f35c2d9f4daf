//! The laws of messages of which nothing is lost.

ghost use Rattle.std.specs.Prelude.{◌≡◌, ℕ, Bool, true, false, List, []};
ghost use Rattle.message_values.specs.Values.{Numbered};
ghost use Rattle.message_values.specs.Reading.{IsRead};
ghost use Rattle.message_values.specs.Writing.{Besides, IsWritten};
ghost use Rattle.message_values.specs.Carried.{AreCarried};
ghost use Rattle.pool_types.specs.Contents.{Contents};
ghost use Rattle.schema_changes.specs.Parts.{Parts, parts_of, one_name};
ghost use Rattle.schema_changes.specs.Entries.{schema_of};
ghost use Rattle.schema_changes.specs.Lost.{CardinalityIsLost, KindIsLost, OneofIsLost};
ghost use Rattle.schema_changes.specs.Lost.{RequiredIsLost};
ghost use Rattle.schema_changes.specs.Unchanged.{LookUp, IsClosed, NothingIsLost, LeavesOut};
ghost use Rattle.schema_changes.specs.Pools.{NamesMean, wire_losses};
ghost use Rattle.schema_changes.specs.Chains.{last_of, goes_on, AllLookUp, NoneChanges};

/// Where nothing is lost of a message and of those that it reaches, what is written of it by the old
/// schema is read by the new one, with the same value of each field that both have.
pub fn unchanged_is_read()
    ensures { (old new : Parts) (reached : ℕ → Bool) (besides : Besides)
        → LookUp old → LookUp new → IsClosed old reached → NothingIsLost old new reached
        → LeavesOut old new reached besides
        → (levels m n : ℕ) → reached m ≡ true → one_name old m new n ≡ true
        → (vs : List Numbered) → IsWritten (schema_of old) besides levels m vs
        → IsRead (schema_of new) levels n vs
        × AreCarried (schema_of old) (schema_of new) levels m n vs }
{}

/// Where no change loses anything, what is written of a message by the old schema is read by the new
/// one that has one with its name, with the same value of each field that both have.
pub fn no_loss_is_read()
    ensures { (old new : Contents) (besides : Besides)
        → LookUp (parts_of old) → LookUp (parts_of new) → NamesMean new
        → wire_losses old new ≡ [] → LeavesOut (parts_of old) (parts_of new) (λ _. true) besides
        → (levels m n : ℕ) → one_name (parts_of old) m (parts_of new) n ≡ true
        → (vs : List Numbered) → IsWritten (schema_of (parts_of old)) besides levels m vs
        → IsRead (schema_of (parts_of new)) levels n vs
        × AreCarried (schema_of (parts_of old)) (schema_of (parts_of new)) levels m n vs }
{}

/// Where each pool of a chain changes nothing of the one before, what is written of a message by the
/// first schema is read by the last one, if each pool between has a message with its name: a number
/// whose field or extension is removed is reserved, and stays so.
pub fn chains()
    ensures { (first : Contents) (later : List Contents)
        → AllLookUp first later → NoneChanges first later
        → (levels m n : ℕ) → goes_on first later m n ≡ true
        → (vs : List Numbered)
        → IsWritten (schema_of (parts_of first)) (λ _ _. false) levels m vs
        → IsRead (schema_of (parts_of (last_of first later))) levels n vs
        × AreCarried (schema_of (parts_of first)) (schema_of (parts_of (last_of first later)))
        levels m n vs }
{}

/// What a new entry does not keep of an old one that is scalar is lost, wherever the old schema
/// writes the message at all and no field of a oneof is required: its kind, that it is repeated, and
/// that it is in no oneof with another. So is what an entry asks that is newly required.
pub fn loss_is_lost()
    ensures kinds { KindIsLost }
    ensures cardinalities { CardinalityIsLost }
    ensures required { RequiredIsLost }
    ensures oneofs { OneofIsLost }
{}
