// The memory that a switch log is made in. It is taken here, so that making a log cannot run out of memory.
use reserved::Reserved;

// Room for the longest session.
pub type LogMemory = Reserved<u32, 65535>;
