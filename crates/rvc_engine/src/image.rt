//! A network that was compiled.

ghost use Rattle.std.specs.Prelude.{◌≡◌, ◌<◌, Some, length, slice_get};
ghost use Rattle.rvc_engine.specs.Answering.{AnswersAs};

use determinacy_cert::CertFault;
use fnl_flatten::Flat;
use lowered_actor::Lowered;
use rvc_base::InstId;
use std::sync::Arc;

/// A network that was compiled.
#[derive(Drop)]
pub struct Image {
    /// Its actors by their paths and classes, its links and its own ports.
    pub flat: Flat,
    /// The code of each actor. Actors of one class over equal values share theirs.
    pub codes: Vec<Arc<Lowered>>,
    /// Why an actor isn't certified, for each; nothing if it is.
    pub uncertified: Vec<Option<CertFault>>,
}

impl Image {
    /// Its actors by their paths and classes, its links and its own ports.
    pub fn wiring(&self) -> &Flat
        ensures { result.now ≡ self.now.flat }
    {
        &self.flat
    }

    /// How many actors it has.
    pub fn instances(&self) -> usize
        ensures { result ≡ length self.now.codes.items }
    {
        self.codes.len()
    }

    /// How many links it has.
    pub fn links(&self) -> usize
        ensures { result ≡ length self.now.flat.links.items }
    {
        self.flat.links.len()
    }

    /// Whether an actor is certified.
    ///
    /// # Errors
    ///
    /// Why it isn't: the first failure of the certification rule.
    pub fn certified(&self, inst: InstId) -> Result<(), &CertFault>
        requires { inst.0 < length self.now.uncertified.items }
        ensures { AnswersAs result (slice_get self.now.uncertified.items inst.0) }
    {
        match &self.uncertified[inst.0 as usize] {
            None => Ok(()),
            Some(fault) => Err(fault),
        }
    }
}
