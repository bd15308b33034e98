ghost use Rattle.std.specs.Prelude.{◌≡◌, ◌&&◌, is_none, is_some};
ghost use Rattle.wb_arguments.specs.Arguments.{are_wanted};

use wb_diagram::Arguments;
use wb_viewpoint::ToolKind;

/// Are exactly those arguments there that a tool of the kind has?
#[tactic(auto, unfolding(crate::specs::Arguments::are_wanted))]
pub fn are_wanted(kind: ToolKind, it: &Arguments) -> bool
    ensures { result ≡ are_wanted kind it.now }
{
    match kind {
        ToolKind::NodeCreation => {
            it.container.is_some()
                && it.source.is_none()
                && it.target.is_none()
                && lacks_element(it)
        }
        ToolKind::EdgeCreation => {
            it.container.is_none()
                && it.source.is_some()
                && it.target.is_some()
                && lacks_element(it)
        }
        ToolKind::Delete => {
            is_on_element(it) && it.arg0.is_none() && it.end.is_none() && it.to.is_none()
        }
        ToolKind::DirectEdit => {
            is_on_element(it) && it.arg0.is_some() && it.end.is_none() && it.to.is_none()
        }
        ToolKind::Reconnect => {
            is_on_element(it) && it.arg0.is_none() && it.end.is_some() && it.to.is_some()
        }
        ToolKind::Drop => {
            is_on_element(it) && it.arg0.is_none() && it.end.is_none() && it.to.is_some()
        }
    }
}

// Is there no element, and nothing that is told of one?
fn lacks_element(it: &Arguments) -> bool
    ensures { result ≡ (is_none it.now.element && (is_none it.now.arg0 && (is_none it.now.end && is_none it.now.to))) }
{
    it.element.is_none() && it.arg0.is_none() && it.end.is_none() && it.to.is_none()
}

// Is there an element, and nothing that another is made in or between?
fn is_on_element(it: &Arguments) -> bool
    ensures { result ≡ (is_none it.now.container && (is_none it.now.source && (is_none it.now.target && is_some it.now.element))) }
{
    it.container.is_none() && it.source.is_none() && it.target.is_none() && it.element.is_some()
}
