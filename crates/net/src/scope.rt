// What the expressions of a net file are read over.
ghost use Rattle.std.specs.Prelude.{◌≤◌, length};

// The file, each set's size, and each variable's set, of at most 32 variables.
#[derive(Clone, Copy)]
pub struct Scope<'a> {
    pub file: &'a [u8],
    pub sizes: &'a [u8],
    pub vars: &'a [u8],
    ghost few_variables: { length vars.now ≤ 32 },
}
