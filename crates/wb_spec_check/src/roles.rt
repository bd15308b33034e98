ghost use Rattle.std.specs.Prelude.{◌≡◌, ◌&&◌, not};
ghost use Rattle.wb_viewpoint.specs.declared.mappings.MappingForm.TheVariants as form;
ghost use Rattle.wb_spec_check.specs.ChildLists.{fits, fits_inside, is_border, is_empty, is_item, is_own, stands_free};

use wb_viewpoint::{MappingForm, NodeKind, NodeMapping};

/// Where the elements of the mappings of a list stand.
#[derive(Clone, Copy)]
pub(crate) enum Role {
    /// Directly in the diagram.
    Top,
    /// Inside the elements of the mapping with this number, which are of this kind.
    Children(u32, NodeKind),
    /// On the border of an element.
    Borders,
}

/// Are these the children of the mapping itself?
pub(crate) fn is_own(role: Role, number: u32) -> bool
    ensures { result ≡ is_own role number }
{
    match role {
        Role::Children(owner, _) => owner == number,
        Role::Top | Role::Borders => false,
    }
}

/// May a mapping of this form stand there?
pub(crate) fn fits(role: Role, form: &MappingForm) -> bool
    ensures { result ≡ fits role form.now }
{
    match role {
        Role::Top => stands_free(form),
        Role::Children(_, kind) => fits_inside(kind, form),
        Role::Borders => is_border(form),
    }
}

fn fits_inside(kind: NodeKind, form: &MappingForm) -> bool
    ensures { result ≡ fits_inside kind form.now }
{
    match kind {
        NodeKind::Container => stands_free(form),
        NodeKind::List => is_item(form),
        NodeKind::Node | NodeKind::Border => false,
    }
}

fn stands_free(form: &MappingForm) -> bool
    ensures { result ≡ stands_free form.now }
{
    match form {
        MappingForm::Node(node) => !is_on_border(node),
        MappingForm::Edge(_) => false,
    }
}

fn is_border(form: &MappingForm) -> bool
    ensures { result ≡ is_border form.now }
{
    match form {
        MappingForm::Node(node) => is_on_border(node),
        MappingForm::Edge(_) => false,
    }
}

fn is_on_border(node: &NodeMapping) -> bool
    ensures border { result ≡ is_border (form.Node node.now) }
    ensures free { not result ≡ stands_free (form.Node node.now) }
{
    match node.kind {
        NodeKind::Border => true,
        NodeKind::Node | NodeKind::Container | NodeKind::List => false,
    }
}

/// A node without children and borders can be an item of a list.
fn is_item(form: &MappingForm) -> bool
    ensures { result ≡ is_item form.now }
{
    match form {
        MappingForm::Node(node) => is_plain(node),
        MappingForm::Edge(_) => false,
    }
}

fn is_plain(node: &NodeMapping) -> bool
    ensures { result ≡ is_item (form.Node node.now) }
{
    match node.kind {
        NodeKind::Node => has_nothing_inside(node),
        NodeKind::Container | NodeKind::List | NodeKind::Border => false,
    }
}

#[tactic(auto, using(crate::proofs::Children::none_there))]
fn has_nothing_inside(node: &NodeMapping) -> bool
    ensures { result ≡ (is_empty node.now.children && is_empty node.now.borders) }
{
    let no_children = node.children.is_empty();
    let no_borders = node.borders.is_empty();
    no_children && no_borders
}
