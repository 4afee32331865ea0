// The operands of an instruction. By themselves, since a struct with a ghost field imports what its file does, and the rules' definitions
// speak of this one.
ghost use Rattle.std.specs.Prelude.{◌+◌, ◌<◌};
ghost use Rattle.read_fields.specs.Places.{places};

// The bytes that the operands stand in, their place, and the type byte of each name.
// A dest and a count with two arguments have seven bytes.
#[derive(Clone, Copy, Debug)]
pub struct Operands<'a> {
    pub bytes: &'a [u8],
    pub types: &'a [u8],
    pub at: usize,
    ghost near: { at + 6 < places },
}
