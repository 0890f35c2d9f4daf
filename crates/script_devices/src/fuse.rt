ghost use Rattle.std.specs.Prelude.{◌≡◌, ◌-◌, ◌↔◌, IsTrue};

/// Counts a call down, and says whether it is the one that fails.
pub(super) fn burns(fuse: &mut u64) -> bool
    ensures fails { IsTrue result ↔ (fuse.old ≡ 1) }
    ensures counted { fuse.new ≡ fuse.old - 1 }
{
    let fails = *fuse == 1;
    *fuse = fuse.saturating_sub(1);
    fails
}
