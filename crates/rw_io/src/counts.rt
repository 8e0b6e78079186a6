// Counts of failures and stalls, in 64 bits each.
ghost use Rattle.std.specs.Prelude.{◌≡◌, ◌≤◌};
ghost use Rattle.rw_io.specs.CountedCalls.{stalls_after};
ghost use Rattle.rw_io.specs.Counts.{raised};

/// One more, up to the last value.
pub fn count(counter: &mut u64)
    ensures next { counter.new ≡ raised counter.old }
    ensures later { counter.old ≤ counter.new }
{
    *counter = counter.saturating_add(1);
}

/// A stall more, where nothing of a nonempty piece was taken.
pub fn count_stall(taken: usize, piece: &[u8], stalls: &mut u64)
    ensures next { stalls.new ≡ stalls_after taken piece.now stalls.old }
    ensures later { stalls.old ≤ stalls.new }
{
    if taken == 0 && !piece.is_empty() {
        count(stalls);
    }
}
