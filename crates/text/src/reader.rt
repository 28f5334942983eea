ghost use Rattle.std.specs.Prelude.{◌+◌, ◌≤◌, length};

mod calls;

// What is left of a text to be read, and the number of its first line.
// It has no `impl Model`, which would be no plainer: what reads a record states its outcome by both fields.
#[derive(Drop)]
pub struct Reader<'a> {
    rest: &'a [u8],
    line: u32,
    ghost few: { line + length rest.now ≤ 32769 },
}
