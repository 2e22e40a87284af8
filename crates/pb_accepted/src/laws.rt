//! Laws of the rules: what is known before a slot, and where instructions lead.
ghost use Rattle.pb_accepted.specs.Forward.{LeadsAreLater, AcceptedJumpsGoForward};
ghost use Rattle.pb_accepted.specs.Rules.{CodesRise};
ghost use Rattle.pb_accepted.specs.Ways.{FramesAreMeets};

use pb_helpers::argument_codes_rise;

/// The frame before a slot says exactly what is known on every way to it: a kind is known, and a byte is written, where it
/// is so after each earlier instruction that leads there. To the first slot entry alone leads.
pub fn frames_are_meets()
    ensures { FramesAreMeets }
{}

/// An instruction leads to later slots alone, and the jumps of an accepted program go forward.
pub fn jumps_lead_on()
    ensures later { LeadsAreLater }
    ensures forward { AcceptedJumpsGoForward }
{}

/// The codes of the rules that an instruction breaks are listed lowest first, all from 21 to 38.
pub fn codes_rise()
    ensures { CodesRise }
{
    argument_codes_rise();
}
