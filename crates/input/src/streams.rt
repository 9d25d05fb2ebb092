// Writing to the two standard streams that a program has for it. No contract can say what a stream takes.
use std::io::Result;
use std::rt::HostRuntime;

#[derive(Clone, Copy, PartialEq, Eq, Debug)]
pub enum Stream {
    Output,
    Error,
}

// Writes all of the bytes.
pub fn write_all(rt: &HostRuntime, stream: Stream, bytes: &[u8]) -> Result<()> {
    match stream {
        Stream::Output => rt.stdout().write_all(bytes),
        Stream::Error => rt.stderr().write_all(bytes),
    }
}
