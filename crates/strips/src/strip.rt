// Task numbers, first in and first out, in a circle of places.
ghost use Rattle.std.specs.Prelude.{◌≡◌, ◌<◌, ◌≤◌, length};

mod calls;

// One place for each task, 0 to 63.
pub(crate) const PLACES: usize = 64;

// An array, since a wait queue never allocates.
#[derive(Drop)]
pub(crate) struct Strip {
    tasks: [u8; PLACES],
    start: u8,
    len: u8,
    ghost places: { length tasks ≡ 64 },
    ghost inside: { start < 64 },
    ghost fits: { len ≤ 64 },
}
