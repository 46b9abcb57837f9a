// The memory that a thinned session is made in. It is taken here, so that thinning cannot run out of memory.
use reserved::Reserved;

// Room for the longest session.
pub type ThinnedMemory = Reserved<u16, 65535>;
