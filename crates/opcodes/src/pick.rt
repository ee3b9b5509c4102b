// A choice with no jump.
ghost use Rattle.std.specs.Prelude.{◌≡◌, cond};

// For speed a function: where it's called, LLVM would turn an `if` into a jump.
pub(crate) fn pick(test: bool, a: u32, b: u32) -> u32
    ensures { result ≡ cond test a b }
{
    if test { a } else { b }
}
