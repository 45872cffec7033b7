//! The conditions of instructions.

ghost use Rattle.std.specs.Prelude.{◌≡◌};
ghost use Rattle.gba_exec_registers.specs.Conditions.{holds};

use gba_arm_table::Condition;
use gba_psr::Flags;

/// Whether a condition holds.
pub fn condition_holds(condition: Condition, flags: Flags) -> bool
    ensures { result ≡ holds condition flags }
{
    let Flags {
        negative,
        zero,
        carry,
        overflow,
    } = flags;
    match condition {
        Condition::Equal => zero,
        Condition::NotEqual => !zero,
        Condition::CarrySet => carry,
        Condition::CarryClear => !carry,
        Condition::Minus => negative,
        Condition::Plus => !negative,
        Condition::Overflow => overflow,
        Condition::NoOverflow => !overflow,
        Condition::Higher => carry && !zero,
        Condition::LowerOrSame => !carry || zero,
        Condition::GreaterOrEqual => negative == overflow,
        Condition::Less => negative != overflow,
        Condition::Greater => !zero && negative == overflow,
        Condition::LessOrEqual => zero || negative != overflow,
        Condition::Always => true,
        Condition::Never => false,
    }
}
