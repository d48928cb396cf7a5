// Scenarios and their parts.
ghost use Rattle.std.specs.Prelude.{◌↔◌, All, IsTrue};
ghost use Rattle.rel_formula.specs.Instance.{Includes};

use rel_formula::Scenario;

/// Whether each of the scenarios that are part of this one is the whole of it.
pub fn is_minimal_among(scenarios: &[Scenario], scenario: &Scenario) -> bool
    ensures { IsTrue result ↔ All (λ t. Includes scenario.now t → Includes t scenario.now) scenarios.now }
{
    for other in scenarios {
        if includes(scenario, other) && !includes(other, scenario) {
            return false;
        }
    }
    true
}

/// Whether the one scenario has each cell of the other.
pub fn includes(scenario: &Scenario, part: &Scenario) -> bool
    ensures { IsTrue result ↔ Includes scenario.now part.now }
{
    for number in part.numbers() {
        if !scenario.has(*number) {
            return false;
        }
    }
    true
}
