//! The limits of the daemon and of its messages, each once. `laws::constants_are_the_limits` ties them to the definitions.

/// The most bytes that the arguments of one log call take, and those of an injection.
pub const PAYLOAD_LIMIT: usize = 1390;

/// The most arguments of one log call: the field NOAR has one byte.
pub const ARGS_LIMIT: u8 = 255;

/// The most bytes of the description of an application or a context.
pub const TEXT_LIMIT: usize = 255;

/// The most bytes of the description of a context that a writer claims.
pub const CLAIM_TEXT_LIMIT: usize = 48;

/// The most bytes of an admitted message.
pub const FRAME_LIMIT: usize = 1984;

/// The greatest LEN of a message that a client sends.
pub const MESSAGE_LIMIT: u16 = 2048;

/// The most applications.
pub const APP_LIMIT: usize = 16;

/// The most contexts of an application: an application has as many slots.
pub const CONTEXT_LIMIT: usize = 64;

/// The most contexts of all applications, each with a slot of its own.
pub const SLOTS: u16 = 1024;

/// The most writers of a run.
pub const WRITER_LIMIT: usize = 32;

/// The most calls that a ring holds.
pub const RING_LIMIT: u16 = 4096;

/// The most injections that the queue of an application holds.
pub const INJECTION_LIMIT: usize = 16;

/// The most calls of a script, of a scenario, and of a run of either.
pub const CALL_LIMIT: u32 = 1_000_000;

/// The most calls of one writer.
pub const WRITER_CALL_LIMIT: u64 = 1 << 40;

/// The last version of a slot's level.
pub const LAST_VERSION: u64 = 0xff_ffff_ffff_ffff;

/// The most clients of a run that ends: of a script, of a scenario, and of channels that are served for a while.
pub const CLIENT_LIMIT: u32 = 32;

/// The most clients that are open at once.
pub const OPEN_CLIENT_LIMIT: usize = 8;

/// The most requests of one client.
pub const REQUEST_LIMIT: u32 = 1000;

/// The most channels of a run that ends.
pub const CHANNEL_LIMIT: u16 = 256;

/// The most channels that are open at once, in a run that ends.
pub const OPEN_CHANNEL_LIMIT: u16 = 16;

/// How many bytes a link is asked for at once.
pub const LINK_PIECE: usize = 4096;

/// How many bytes of a file or of an input are asked for at once.
pub const INPUT_PIECE: usize = 8192;

/// The most frames that one turn of a channel admits.
pub const TURN_FRAMES: u64 = 4096;

/// The most log messages that are admitted together, and the most frames that are stored together.
pub const BATCH_LIMIT: usize = 64;

/// The most lost messages that one overflow record counts: its counter has four bytes.
pub const COUNTER_LIMIT: u64 = u32::MAX as u64;

/// The most frames that are admitted.
pub const ADMITTED_LIMIT: u64 = 1 << 40;
