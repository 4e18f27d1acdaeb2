//! Who may use the folder of a network and the files in it.
ghost use Rattle.std.specs.Prelude.{◌≡◌};
ghost use Rattle.process_parts.specs.Rights.{folder_mode, own_mode, clients_mode};

/// The rights that a node gives to others besides its own user.
#[derive(Clone, Copy)]
pub enum Rights {
    /// Only its user may enter a folder that it makes. If the folder is already there, the folder
    /// and the user's mask decide.
    Usual,
    /// The user's group may enter the folder, and use the socket for clients; only the user may use
    /// the rest.
    GroupLocks,
}

impl Rights {
    /// The mode of a folder that is made.
    pub fn folder(self) -> u32
        ensures { result ≡ folder_mode self }
    {
        match self {
            Rights::Usual => 0o700,
            Rights::GroupLocks => 0o750,
        }
    }

    /// The mode of a node's state and of its sockets for neighbours and for whoever looks, if it is set.
    pub fn own(self) -> Option<u32>
        ensures { result ≡ own_mode self }
    {
        match self {
            Rights::Usual => None,
            Rights::GroupLocks => Some(0o600),
        }
    }

    /// The mode of a node's socket for clients, if it is set.
    pub fn clients(self) -> Option<u32>
        ensures { result ≡ clients_mode self }
    {
        match self {
            Rights::Usual => None,
            Rights::GroupLocks => Some(0o660),
        }
    }
}
