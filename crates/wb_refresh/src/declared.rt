use wb_base::List;
use wb_diagram::{EdgeKey, Key, Look};

/// What is declared, and how it looks.
pub struct Declared {
    pub nodes: List<Key>,
    pub edges: List<EdgeKey>,
    pub shown: Shown,
}

impl Drop for Declared {
    fn drop(self) {
        let Declared {
            nodes: _nodes,
            edges: _edges,
            shown: _shown,
        } = self;
    }
}

/// The looks of elements and then of edges, and by filter which of them it hides.
pub struct Shown {
    pub looks: List<Look>,
    pub filtered: List<List<bool>>,
}

impl Drop for Shown {
    fn drop(self) {
        let Shown {
            looks: _looks,
            filtered: _filtered,
        } = self;
    }
}
