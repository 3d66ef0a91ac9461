// What descriptors stand for.

/// A connection that waits at a port: the numbers of its two pipes.
#[derive(Clone, Copy, Debug, PartialEq, Eq)]
pub struct Conn {
    /// What the client writes and the server reads.
    pub to_server: u32,
    /// What the server writes and the client reads.
    pub to_client: u32,
}

/// What an open descriptor stands for. Descriptors that are copies of each other share one.
#[derive(Clone, Copy)]
pub enum Description {
    Console,
    /// A file, and the place of the next read or write.
    File { file: u32, position: u32 },
    /// The read end of a pipe.
    Reader { pipe: u32 },
    /// The write end of a pipe.
    Writer { pipe: u32 },
    /// One side of a connection: it reads one pipe and writes the other.
    Connection { reads: u32, writes: u32 },
    /// A port that is listened to.
    Listener { port: u16 },
    Device { device: u32 },
}
