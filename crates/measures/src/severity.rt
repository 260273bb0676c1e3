// How long after red begins an entry counts as severe: the setting of the red-light measure.
ghost use Rattle.std.specs.Prelude.{◌≡◌, ◌<◌, ◌≤◌, MatchResult};
ghost use Rattle.controller_log.specs.Refusals.{told};
ghost use Rattle.controller_log.specs.declared.refusal.Refusal.TheVariants.{SeverityTooLong};
ghost use Rattle.measures.specs.Limits.{max_severity};

use crate::limits::MAX_SEVERITY;
use controller_log::refusal::Refusal;

// In tenths of a second. A ghost field and no model: a model would hide the limit from whoever is handed a severity.
#[derive(Clone, Copy, PartialEq, Eq, Debug)]
pub struct Severity {
    tenths: u8,
    ghost short: { tenths ≤ max_severity },
}

impl Severity {
    // Refused where it is over the limit. A constructor: a bare number does not say that it is a severity.
    pub fn new(tenths: u8) -> Result<Severity, Refusal>
        ensures { MatchResult result (λ s. (s.tenths ≡ tenths) × (tenths ≤ max_severity)) (λ e. (told e ≡ told SeverityTooLong) × (max_severity < tenths)) }
    {
        if tenths > MAX_SEVERITY {
            return Err(Refusal::SeverityTooLong);
        }
        Ok(Severity { tenths })
    }

    // A method and no From, since its name says the unit.
    pub fn tenths(&self) -> u8
        ensures { (result ≡ self.now.tenths) × (result ≤ max_severity) }
    {
        self.tenths
    }
}
