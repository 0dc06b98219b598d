// What is found: a file of its own, since what is said of it (specs/Told.antt) stands on it.
ghost use Rattle.std.specs.Prelude.{◌<◌};

// A loop of `len` rules, read from transition `at`: the first `len` places of `rules` (fixed memory).
#[derive(Clone, Copy)]
pub struct Found {
    pub len: usize,
    pub at: usize,
    pub rules: [u16; 256],
    ghost some: { 0 < len },
}
