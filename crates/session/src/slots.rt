// Where the last stamp of a rank, kind and bank stands.
ghost use Rattle.std.specs.Prelude.{◌<◌};

// A place among the last stamps.
#[derive(Clone, Copy)]
pub struct Slot {
    pub place: usize,
    ghost low: { place < 224 },
}
