use wb_base::List;
use wb_expressions::Checked;

/// A conditional style: its condition, and its label.
pub struct CheckedStyle {
    pub when: Checked,
    pub label: Option<Checked>,
}

impl Drop for CheckedStyle {
    fn drop(self) {
        let CheckedStyle {
            when: _when,
            label: _label,
        } = self;
    }
}

/// The label of the default style, and the conditional styles.
pub struct CheckedLooks {
    pub label: Option<Checked>,
    pub styles: List<CheckedStyle>,
}

impl Drop for CheckedLooks {
    fn drop(self) {
        let CheckedLooks {
            label: _label,
            styles: _styles,
        } = self;
    }
}
