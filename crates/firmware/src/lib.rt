// What the box firmware, which is in C, asks: one question by bytes and numbers alone (include/mofrindi.h). Nothing else is
// exported.
#![tactic(auto)]

ghost use Rattle.std.specs.Prelude.{◌≡◌};
ghost use Rattle.rules.specs.Section.{check};

// Does this section read right? 0, or the number of the refusal, 3 to 11.
#[tactic(auto, unfolding(rules::specs::Section::check, rules::specs::Section::check_of, rules::specs::Section::read_as))]
#[unsafe(no_mangle)]
pub extern "C" fn mofrindi_check_section(section: &[u8]) -> u32
    ensures { result ≡ check section.now }
{
    match section::read_section(section) {
        Ok(_) => 0,
        Err(refusal) => refusal.number() as u32,
    }
}
