ghost use Rattle.std.specs.Prelude.{◌≡◌, ◌≤◌, [], ◌∷◌, false, length, IfOk};
ghost use Rattle.wb_diagram.specs.declared.units.Unit.TheVariants.{Style as StyleUnit};
ghost use Rattle.wb_answers.specs.Meanings.{is_true};
ghost use Rattle.wb_answers.specs.Seen.{Asks};
ghost use Rattle.wb_looks.specs.Looks.{chosen, style_at, style_units, style_used};

use std::alloc::Global;
use wb_answers::{Answers, Stop, is_true};
use wb_base::Duplicate;
use wb_diagram::{AnyKey, Unit};
use wb_viewpoint::{Looks, Style};

/// The number of the style that is used: of the first conditional one whose predicate is true, or 0; the predicates up to it are asked.
pub fn style_used<A: Answers>(
    alloc: Global,
    looks: &Looks,
    key: &AnyKey,
    answers: &mut A,
) -> Result<u32, Stop>
    requires few { length looks.now.styles ≤ 32 }
    requires fine { (A.seen answers.old).over ≡ false }
    ensures style { IfOk result (λ style. style ≡ style_used looks.now (A.seen answers.old).told key.now) }
    ensures asks { Asks (A.seen answers.old) (style_units (A.seen answers.old).told key.now 1 (length looks.now.styles)) result (A.seen answers.new) }
{
    chosen(alloc, key, looks.styles.len() as u32, answers)
}

// Among so many conditional styles.
fn chosen<A: Answers>(alloc: Global, key: &AnyKey, count: u32, answers: &mut A) -> Result<u32, Stop>
    requires { (A.seen answers.old).over ≡ false }
    ensures style { IfOk result (λ style. style ≡ chosen (A.seen answers.old).told key.now 1 count) }
    ensures asks { Asks (A.seen answers.old) (style_units (A.seen answers.old).told key.now 1 count) result (A.seen answers.new) }
{
    for index in 0..count {
        let style = index + 1;
        let held = holds(alloc, key, style, answers)?;
        if held {
            return Ok(style);
        }
    }
    Ok(0)
}

// Is the predicate of a conditional style true?
fn holds<A: Answers>(alloc: Global, key: &AnyKey, style: u32, answers: &mut A) -> Result<bool, Stop>
    requires { (A.seen answers.old).over ≡ false }
    ensures value { IfOk result (λ b. b ≡ is_true ((A.seen answers.old).told (StyleUnit style key.now))) }
    ensures asks { Asks (A.seen answers.old) (StyleUnit style key.now ∷ []) result (A.seen answers.new) }
{
    let unit = Unit::Style {
        style,
        key: key.copy(alloc)?,
    };
    let answer = answers.answer(alloc, &unit)?;
    Ok(is_true(&answer))
}

/// The style of a number: 0 is the default style, conditional ones count from 1.
pub fn style_at(looks: &Looks, number: u32) -> &Style
    ensures { result.now ≡ style_at looks.now number }
{
    if number == 0 {
        return &looks.style;
    }
    match looks.styles.as_slice().get(number as usize - 1) {
        Some(conditional) => &conditional.style,
        None => &looks.style,
    }
}
