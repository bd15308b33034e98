ghost use Rattle.std.specs.Prelude.{◌≡◌};

use crate::classes::Class;
use crate::features::Feature;
use wb_base::List;

/// A class and the features that it declares, whose names name something.
pub struct ResolvedClass {
    pub class: Class,
    pub features: List<Feature>,
}

impl Drop for ResolvedClass {
    fn drop(self) {
        let ResolvedClass {
            class: _class,
            features: _features,
        } = self;
    }
}

impl ResolvedClass {
    /// The class, and its features.
    pub fn into_parts(self) -> (Class, List<Feature>)
        ensures { result ≡ (self.class, self.features) }
    {
        let ResolvedClass { class, features } = self;
        (class, features)
    }
}
