//! Records of sessions.
ghost use Rattle.std.specs.Prelude.{◌≡◌};

use sync_session::Session;

/// A session of a range, with its number and its partner. A range numbers its sessions from 0, and uses no number
/// twice. It keeps each record, so the texts that a session compared and took can be looked up later, until
/// `drop_ended_sessions`.
///
/// ```
/// Ok(record(state, id)?.session().state())
/// ```
pub struct Record {
    pub(crate) number: u64,
    pub(crate) partner: u16,
    pub(crate) session: Session,
}

impl Record {
    /// Returns the number of the session.
    pub fn number(&self) -> u64
        ensures { result ≡ self.now.number }
    {
        self.number
    }

    /// Returns the number of the partner.
    pub fn partner(&self) -> u16
        ensures { result ≡ self.now.partner }
    {
        self.partner
    }

    /// Returns the session.
    pub fn session(&self) -> &Session
        ensures { result.now ≡ self.now.session }
    {
        &self.session
    }
}

impl Drop for Record {
    /// Keeps the fields out of the proofs of callers that drop a record.
    fn drop(self) {
        let Record {
            number: _number,
            partner: _partner,
            session: _session,
        } = self;
    }
}
