//! The making of a house from its settings: its parts, each as large as the settings say. What it does then is told in `house`, what
//! the settings are in the crate `settings`.

ghost use Rattle.std.specs.Prelude.{◌≡◌, ◌⊎◌, max, IfOk, IfSome, IsOkUnless, Err, None};
ghost use Rattle.delivery_core.specs.New.{IsNewBox};
ghost use Rattle.delivery_core.specs.Stands.{EachAt};
ghost use Rattle.house.specs.Scene.{empty_scene};
ghost use Rattle.house.specs.Setup.{setup_of};
ghost use Rattle.settings.specs.Settings.{IsInRange, config_fault};
ghost use Rattle.house.specs.Stands.{StandsFor};

use crate::core_store::CoreStore;
use crate::house::House;
use crate::peer::Seats;
use delivery_core::{DeliveryCore, Settings};
use mailbox::Limits;
use settings::{Config, ConfigFault, directory_of};
use std::alloc::Global;

/// So many connections may stand at a time. Their seats come first.
const CONNECTION_SEATS: u8 = 8;

/// So many sessions may be there at a time. Their seats are behind those of connections.
const PLACES: u8 = 8;

impl House {
    /// A house of these settings, with nobody at its seats and places and nothing in its mailboxes.
    ///
    /// Errors, the first that holds: `TooMany` for more than 64 mailboxes; `BadName` for the host, then for the domain; then the fault
    /// of the first word that has one, `BadName` if it is spelled wrong or its user has no word before it, `Twice` if it names an
    /// earlier one's mailbox in upper or lower case; `Ring` where the ring keeps fewer than two changes for each message, or its most
    /// is not 0 and is less than it; `Ports` where mail is to come to port 25 or to a user's port. In place of any of them, and where nothing else is
    /// wrong, `NoMemory` if memory is refused.
    pub fn new(alloc: Global, config: &Config) -> Result<House, ConfigFault>
        // Each number is in its range, and there is a mailbox: `Config::is_in_range`.
        requires { IsInRange config.now }

        // It stands for the empty scene of these settings: nobody is there, nothing has happened, no shard is shut.
        ensures stands { IfOk result (λ h.
            StandsFor (setup_of config.now) h (empty_scene (setup_of config.now))) }

        // Where something is wrong, the first fault that holds is the error, or NoMemory.
        ensures fault { IfSome (config_fault config.now) (λ fault. (result ≡ Err fault)
            ⊎ (result ≡ Err ConfigFault.NoMemory)) }

        // Each mailbox is empty, with the settings' UIDs, room and window.
        ensures mailboxes { IfOk result (λ h. EachAt (λ m b.
            IsNewBox m config.now.uidvalidity config.now.first_uid config.now.messages
            config.now.ring
            (max config.now.ring config.now.ring_max) b) h.core.boxes) }

        // Where nothing is wrong, there is one, unless memory is refused.
        ensures made { config_fault config.now ≡ None → IsOkUnless result ConfigFault.NoMemory }
    {
        let directory = directory_of(alloc, config)?;
        let settings = Settings {
            seats: CONNECTION_SEATS + PLACES,
            shards: config.shards,
            mailboxes: directory.mailboxes() as u8,
            sessions: usize::from(PLACES),
            depth: config.depth,
            uidvalidity: config.uidvalidity,
            first_uid: config.first_uid,
            limits: Limits {
                messages: config.messages,
                ring: config.ring,
                ring_max: config.ring_max,
            },
        };
        Ok(House {
            store: CoreStore {
                core: DeliveryCore::new(alloc, settings)?,
                session: 0,
            },
            connections: Seats::empty(alloc, CONNECTION_SEATS)?,
            sessions: Seats::empty(alloc, PLACES)?,
            directory,
            host: Vec::from_slice(alloc, &config.host)?,
            max_message: config.max_message,
            compatible: config.compatible,
        })
    }
}
