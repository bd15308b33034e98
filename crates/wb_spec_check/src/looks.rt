ghost use Rattle.std.specs.Prelude.{◌≡◌, ℕ, Some, codes};
ghost use Rattle.wb_spec_check.specs.Mappings.{label_at, style_at, looks_at};
ghost use Rattle.wb_spec_check.specs.Places.{place_of, ◌▸◌, ◌!◌};
ghost use Rattle.wb_spec_check.specs.Validated.{each};
ghost use Rattle.wb_spec_check.specs.declared.checked_looks.CheckedStyle.{CheckedStyle};
ghost use Rattle.wb_spec_check.specs.declared.checked_looks.CheckedLooks.{CheckedLooks};
ghost use Rattle.wb_spec_check.specs.invariants.Reports.{Reports, ◌<&>◌};

use crate::checked_looks::{CheckedLooks, CheckedStyle};
use crate::names::Names;
use crate::path::Path;
use crate::problem::Problem;
use crate::reports::gather;
use crate::spots::{expression_at, optional_expression_at};
use std::alloc::{AllocError, Global};
use wb_base::List;
use wb_expressions::Checked;
use wb_viewpoint::{ConditionalStyle, Looks, Style};

/// The label of a style at a place.
#[tactic(auto, unfolding(crate::specs::Mappings::label_at, crate::specs::Places::place_of))]
fn label_at(
    alloc: Global,
    problems: &mut List<Problem>,
    names: &Names<'_>,
    path: &Path<'_>,
    style: &Style,
) -> Result<Option<Option<Checked>>, AllocError>
    ensures { Reports (label_at names.now.0 (place_of path.now) style.now) problems.old result problems.new }
{
    optional_expression_at(
        alloc,
        problems,
        names.metamodel(),
        names.self_alone(),
        &Path::Member(path, "label"),
        &style.label,
    )
}

fn style_with(when: Option<Checked>, label: Option<Option<Checked>>) -> Option<CheckedStyle>
    ensures { result ≡ (Some (λ when label. record { when = when; label = label }) <&> when <&> label) }
{
    match (when, label) {
        (Some(when), Some(label)) => Some(CheckedStyle { when, label }),
        _ => None,
    }
}

/// A conditional style at a place.
#[tactic(auto, unfolding(crate::specs::Mappings::style_at, crate::specs::Places::place_of))]
fn style_at(
    alloc: Global,
    problems: &mut List<Problem>,
    names: &Names<'_>,
    path: &Path<'_>,
    style: &ConditionalStyle,
) -> Result<Option<CheckedStyle>, AllocError>
    ensures { Reports (style_at names.now.0 (place_of path.now) style.now) problems.old result problems.new }
{
    let when = expression_at(
        alloc,
        problems,
        names.metamodel(),
        names.self_alone(),
        &Path::Member(path, "when"),
        &style.when,
    )?;
    let label = label_at(
        alloc,
        problems,
        names,
        &Path::Member(path, "style"),
        &style.style,
    )?;
    Ok(style_with(when, label))
}

fn styles_at(
    alloc: Global,
    problems: &mut List<Problem>,
    names: &Names<'_>,
    path: &Path<'_>,
    styles: &[ConditionalStyle],
) -> Result<Option<List<CheckedStyle>>, AllocError>
    ensures { Reports (each (λ i style. style_at names.now.0 (place_of path.now ! i) style) styles.now) problems.old result problems.new }
{
    let mut found = Some(List::new(alloc));
    for (number, style) in styles.iter().enumerate() {
        let style = style_at(alloc, problems, &*names, &Path::Item(&*path, number), style)?;
        gather(&mut found, style)?;
    }
    Ok(found)
}

fn looks_with(
    label: Option<Option<Checked>>,
    styles: Option<List<CheckedStyle>>,
) -> Option<CheckedLooks>
    ensures { result ≡ (Some (λ label styles. record { label = label; styles = styles }) <&> label <&> styles) }
{
    match (label, styles) {
        (Some(label), Some(styles)) => Some(CheckedLooks { label, styles }),
        _ => None,
    }
}

/// The looks of a mapping, whose members stand at a place.
#[tactic(auto, unfolding(crate::specs::Mappings::looks_at, crate::specs::Places::place_of))]
pub(crate) fn looks_at(
    alloc: Global,
    problems: &mut List<Problem>,
    names: &Names<'_>,
    path: &Path<'_>,
    looks: &Looks,
) -> Result<Option<CheckedLooks>, AllocError>
    ensures { Reports (looks_at names.now.0 (place_of path.now) looks.now) problems.old result problems.new }
{
    let label = label_at(
        alloc,
        problems,
        names,
        &Path::Member(path, "style"),
        &looks.style,
    )?;
    let styles = styles_at(
        alloc,
        problems,
        names,
        &Path::Member(path, "styles"),
        looks.styles.as_slice(),
    )?;
    Ok(looks_with(label, styles))
}
