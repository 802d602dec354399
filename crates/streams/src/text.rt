// Writing lines to a writer.
use std::fmt::Display;
use std::io;
use std::io::Write;

// A line of numbers, with its name in front.
pub fn say_list<W: Write, T: Display>(to: &mut W, name: &str, list: &[T]) -> io::Result<()> {
    write!(to, "{name}")?;
    for x in list {
        write!(to, " {x}")?;
    }
    writeln!(to)
}
