// Standard streams that keep why they failed.
use std::io::{self, Read, Write};

/// A stream, and the error with which its last call ended, if it ended with one.
#[derive(Drop)]
pub struct Noting<T> {
    pub stream: T,
    pub error: Option<io::Error>,
}

impl<T> Noting<T> {
    pub fn new(stream: T) -> Noting<T> {
        Noting {
            stream,
            error: None,
        }
    }
}

/// What a session reads, and what it writes.
#[derive(Drop)]
pub struct Streams<R, W> {
    pub source: Noting<R>,
    pub sink: Noting<W>,
}

impl<R, W> Streams<R, W> {
    pub fn new(reader: R, writer: W) -> Streams<R, W> {
        Streams {
            source: Noting::new(reader),
            sink: Noting::new(writer),
        }
    }
}

/// The error of an answer.
fn error_of(answer: &io::Result<usize>) -> Option<io::Error> {
    match answer {
        Ok(_) => None,
        Err(error) => Some(*error),
    }
}

impl<R: Read> Read for Noting<R> {
    ghost remaining = { λ noting. R.remaining noting.stream };

    fn read(&mut self, buf: &mut [u8]) -> io::Result<usize> {
        let answer = self.stream.read(buf);
        self.error = error_of(&answer);
        answer
    }
}

impl<W: Write> Write for Noting<W> {
    ghost contents = { λ noting. W.contents noting.stream };

    fn write(&mut self, buf: &[u8]) -> io::Result<usize> {
        let answer = self.stream.write(buf);
        self.error = error_of(&answer);
        answer
    }

    fn flush(&mut self) -> io::Result<()> {
        self.stream.flush()
    }
}
