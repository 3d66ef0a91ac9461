// The numbers of the calls of the kernel.

/// The number of the call `exit(status)`.
pub const EXIT: u64 = 1;

/// The number of the call `fork()`.
pub const FORK: u64 = 2;

/// The number of the call `exec(path, length, block, block length)`.
pub const EXEC: u64 = 3;

/// The number of the call `wait(address)`.
pub const WAIT: u64 = 4;

/// The number of the call `getpid()`.
pub const GETPID: u64 = 5;

/// The number of the call `kill(process, signal)`.
pub const KILL: u64 = 6;

/// The number of the call `sigaction(signal, handler)`.
pub const SIGACTION: u64 = 7;

/// The number of the call `sigreturn()`.
pub const SIGRETURN: u64 = 8;

/// The number of the call `open(path, length, mode)`.
pub const OPEN: u64 = 9;

/// The number of the call `close(descriptor)`.
pub const CLOSE: u64 = 10;

/// The number of the call `read(descriptor, address, count)`.
pub const READ: u64 = 11;

/// The number of the call `write(descriptor, address, count)`.
pub const WRITE: u64 = 12;

/// The number of the call `seek(descriptor, position)`.
pub const SEEK: u64 = 13;

/// The number of the call `dup(descriptor)`.
pub const DUP: u64 = 14;

/// The number of the call `pipe()`.
pub const PIPE: u64 = 15;

/// The number of the call `unlink(path, length)`.
pub const UNLINK: u64 = 16;

/// The number of the call `shm()`.
pub const SHM: u64 = 17;

/// The number of the call `listen(port)`.
pub const LISTEN: u64 = 18;

/// The number of the call `connect(port)`.
pub const CONNECT: u64 = 19;

/// The number of the call `accept(descriptor)`.
pub const ACCEPT: u64 = 20;

/// The number of the call `device(number)`.
pub const DEVICE: u64 = 21;

/// The number of the call `yield()`.
pub const YIELD: u64 = 22;
