// Lines in what was read: input comes in pieces, and a piece may end anywhere in a line.
ghost use Rattle.std.specs.Prelude.{◌≡◌, length};
ghost use Rattle.journal.specs.Restore.{put_at};
ghost use Rattle.console.specs.Output.{under_way};

// One byte more than a line may have: of a longer one this much is kept, and it stays too long.
const MAX_KEPT: usize = 4097;

// The line under way, from a place to an end, goes to the front; how much of it is kept. Buffer, places and count are its promise.
pub fn keep(bytes: &mut [u8], from: usize, end: usize) -> usize
    ensures { (result ≡ length (under_way bytes.old from end)) × (bytes.new ≡ put_at bytes.old 0 (under_way bytes.old from end)) }
{
    if end <= from || bytes.len() < end {
        return 0;
    }
    let kept = (end - from).min(MAX_KEPT);
    bytes.copy_within(from..from + kept, 0);
    kept
}
