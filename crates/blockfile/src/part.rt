// A part of a file.
ghost use Rattle.std.specs.Prelude.{◌+◌, ◌^◌, ◌<◌, length};

pub(crate) mod opening;

// Bytes of a file, and the place of the first of them.
#[derive(Clone, Copy, Debug)]
pub(crate) struct Part<'a> {
    pub(crate) place: usize,
    pub(crate) bytes: &'a [u8],
    ghost fits: { place + length bytes.now < 2 ^ 64 },
}

// What a field holds, and what follows it.
#[derive(Clone, Copy, Debug)]
pub(crate) struct Field<'a> {
    pub(crate) payload: Part<'a>,
    pub(crate) rest: Part<'a>,
}
