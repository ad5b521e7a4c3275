//! What a registration says, as C hands it over.

/// An application, or a context of one.
#[repr(C)]
#[derive(Clone, Copy)]
pub struct Registration {
    /// APID: the id of the application.
    pub apid: [u8; 4],
    /// CTID: the id of the context.
    pub ctid: [u8; 4],
    /// The level until the daemon tells one, 0 to 6.
    pub level: u8,
    /// The level of its own that it asks for, 0 to 6, or -1 to follow the daemon's default level.
    pub own: i8,
    /// The process id of the program.
    pub pid: u32,
}
