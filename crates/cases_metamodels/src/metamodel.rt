use std::alloc::{AllocError, Global};
use std::fmt::Debug;
use std::process::Abort;
use std::test::Fail;
use wb_base::Duplicate;
use wb_metamodel::{ClassId, EnumId, FeatureId, Metamodel, MetamodelRefusal, read_metamodel};

/// Refusals and texts that spell no metamodel.
const NO_METAMODELS: [(&str, &str); 16] = [
    ("BadJson #", ""),
    ("BadJson #", r#"{"package":"p","classes":[]"#),
    ("BadJson #", r#"{"package":"p","classes":[]} x"#),
    ("BadShape #", "[]"),
    ("BadShape #/package", r#"{"package":5}"#),
    ("BadShape #", r#"{"classes":5}"#),
    (
        "BadShape #/aaa",
        r#"{"package":"p","zzz":1,"aaa":2,"classes":[]}"#,
    ),
    ("BadShape #/package", r#"{"package":"1p","classes":[]}"#),
    ("BadShape #", r#"{"package":"p"}"#),
    ("BadShape #/classes/0", r#"{"package":"p","classes":[{}]}"#),
    (
        "BadShape #/classes/0/abstract",
        r#"{"package":"p","classes":[{"name":"A","abstract":1}]}"#,
    ),
    (
        "BadShape #/classes/0/features/0",
        r#"{"package":"p","classes":[{"name":"A","features":[{"name":"f"}]}]}"#,
    ),
    (
        "BadShape #/classes/0/features/0/containment",
        r#"{"package":"p","classes":[{"name":"A","features":[{"name":"f","type":"Int","containment":true}]}]}"#,
    ),
    (
        "BadShape #/classes/0/features/0/type",
        r#"{"package":"p","classes":[{"name":"A","features":[{"name":"f","reference":"A","type":"Int"}]}]}"#,
    ),
    (
        "BadShape #/enums/0/literals/1",
        r#"{"package":"p","enums":[{"name":"E","literals":["a","b c"]}],"classes":[]}"#,
    ),
    (
        "BadShape #/enums/0/a~1b",
        r#"{"package":"p","enums":[{"name":"E","literals":[],"a/b":1}],"classes":[]}"#,
    ),
];

/// Refusals and metamodels whose names repeat or name nothing.
const WRONG_NAMES: [(&str, &str); 20] = [
    (
        "DuplicateName #/classes/1/name",
        r#"{"package":"p","classes":[{"name":"A"},{"name":"A"}]}"#,
    ),
    (
        "DuplicateName #/classes/0/name",
        r#"{"package":"p","classes":[{"name":"Int"}]}"#,
    ),
    (
        "DuplicateName #/enums/0/name",
        r#"{"package":"p","enums":[{"name":"Text","literals":[]}],"classes":[]}"#,
    ),
    (
        "DuplicateName #/classes/0/name",
        r#"{"package":"p","enums":[{"name":"A","literals":[]}],"classes":[{"name":"A"}]}"#,
    ),
    (
        "DuplicateName #/enums/0/literals/2",
        r#"{"package":"p","enums":[{"name":"E","literals":["a","b","a"]}],"classes":[]}"#,
    ),
    (
        "DuplicateName #/enums/1/name",
        r#"{"package":"p","enums":[{"name":"E","literals":["a"]},{"name":"E","literals":["b","b"]}],"classes":[]}"#,
    ),
    (
        "DuplicateName #/classes/0/features/1/name",
        r#"{"package":"p","classes":[{"name":"A","features":[{"name":"f","type":"Int"},{"name":"f","type":"Bool"}]}]}"#,
    ),
    (
        "DuplicateName #/classes/1/supertypes/1",
        r#"{"package":"p","classes":[{"name":"A"},{"name":"B","supertypes":["A","A"],"features":[{"name":"f","type":"Int"},{"name":"f","type":"Bool"}]}]}"#,
    ),
    (
        "DuplicateName #/classes/1/features/1/name",
        r#"{"package":"p","classes":[{"name":"A","supertypes":["X"]},{"name":"B","features":[{"name":"f","type":"Int"},{"name":"f","type":"Bool"}]}]}"#,
    ),
    (
        "UnknownName #/classes/0/supertypes/1",
        r#"{"package":"p","classes":[{"name":"A","supertypes":["B","X"]},{"name":"B"}]}"#,
    ),
    (
        "UnknownName #/classes/0/features/0/type",
        r#"{"package":"p","classes":[{"name":"A","features":[{"name":"f","type":"E"}]}]}"#,
    ),
    (
        "UnknownName #/classes/0/features/0/type",
        r#"{"package":"p","classes":[{"name":"A","features":[{"name":"f","type":"A"}]}]}"#,
    ),
    (
        "UnknownName #/classes/0/features/0/reference",
        r#"{"package":"p","enums":[{"name":"E","literals":[]}],"classes":[{"name":"A","features":[{"name":"f","reference":"E"}]}]}"#,
    ),
    (
        "UnknownName #/classes/0/features/0/opposite",
        r#"{"package":"p","classes":[{"name":"A","features":[{"name":"f","reference":"B","opposite":"f"}]},{"name":"B"}]}"#,
    ),
    (
        "UnknownName #/classes/1/features/0/opposite",
        r#"{"package":"p","classes":[{"name":"A","features":[{"name":"f","type":"Int"}]},{"name":"B","features":[{"name":"g","reference":"C","opposite":"f"}]},{"name":"C","supertypes":["A"]}]}"#,
    ),
    (
        "DuplicateName #/classes/3",
        r#"{"package":"p","classes":[{"name":"A"},{"name":"B","supertypes":["A"],"features":[{"name":"f","type":"Int"}]},{"name":"C","supertypes":["A"],"features":[{"name":"f","type":"Int"}]},{"name":"D","supertypes":["B","C"]}]}"#,
    ),
    (
        "DuplicateName #/classes/1",
        r#"{"package":"p","classes":[{"name":"A","features":[{"name":"f","type":"Int"}]},{"name":"B","supertypes":["A"],"features":[{"name":"f","type":"Int"}]}]}"#,
    ),
    (
        "DuplicateName #/classes/1/name",
        r#"{"package":"p","classes":[{"name":"A","supertypes":["X"]},{"name":"A"}]}"#,
    ),
    (
        "UnknownName #/classes/1/features/0/reference",
        r#"{"package":"p","classes":[{"name":"A","supertypes":["A"]},{"name":"B","features":[{"name":"f","reference":"X"}]}]}"#,
    ),
    (
        "DuplicateName #/classes/2",
        r#"{"package":"p","classes":[{"name":"A","features":[{"name":"f","reference":"A","opposite":"f"}]},{"name":"B","features":[{"name":"f","type":"Int"}]},{"name":"C","supertypes":["A","B"]}]}"#,
    ),
];

/// Refusals and metamodels with cycles of supertypes, or with opposites that do not match.
const WRONG_LINKS: [(&str, &str); 11] = [
    (
        "SupertypeCycle #/classes/0",
        r#"{"package":"p","classes":[{"name":"A","supertypes":["A"]}]}"#,
    ),
    (
        "SupertypeCycle #/classes/0",
        r#"{"package":"p","classes":[{"name":"A","supertypes":["B"]},{"name":"B","supertypes":["A"]}]}"#,
    ),
    (
        "SupertypeCycle #/classes/1",
        r#"{"package":"p","classes":[{"name":"A","supertypes":["B"]},{"name":"B","supertypes":["C"]},{"name":"C","supertypes":["D"]},{"name":"D","supertypes":["B"]}]}"#,
    ),
    (
        "OppositeMismatch #/classes/0/features/0",
        r#"{"package":"p","classes":[{"name":"A","features":[{"name":"f","reference":"A","opposite":"f"}]}]}"#,
    ),
    (
        "OppositeMismatch #/classes/0/features/1",
        r#"{"package":"p","classes":[{"name":"A","features":[{"name":"a","type":"Int"},{"name":"f","reference":"B","opposite":"g"}]},{"name":"B","features":[{"name":"g","type":"Int"}]}]}"#,
    ),
    (
        "OppositeMismatch #/classes/0/features/0",
        r#"{"package":"p","classes":[{"name":"A","features":[{"name":"f","reference":"B","opposite":"g"}]},{"name":"B","features":[{"name":"g","reference":"A"}]}]}"#,
    ),
    (
        "OppositeMismatch #/classes/1/features/0",
        r#"{"package":"p","classes":[{"name":"A","features":[{"name":"f","reference":"B"}]},{"name":"B","features":[{"name":"g","reference":"A","opposite":"f"}]}]}"#,
    ),
    (
        "OppositeMismatch #/classes/0/features/0",
        r#"{"package":"p","classes":[{"name":"A","features":[{"name":"f","reference":"B","opposite":"g"}]},{"name":"B","features":[{"name":"g","reference":"C","opposite":"h"}]},{"name":"C","features":[{"name":"h","reference":"B","opposite":"g"}]}]}"#,
    ),
    (
        "OppositeMismatch #/classes/0/features/0",
        r#"{"package":"p","classes":[{"name":"A","features":[{"name":"f","reference":"B","containment":true,"opposite":"g"}]},{"name":"B","features":[{"name":"g","reference":"A","containment":true,"opposite":"f"}]}]}"#,
    ),
    (
        "OppositeMismatch #/classes/1/features/0",
        r#"{"package":"p","classes":[{"name":"A","features":[{"name":"f","reference":"B","many":true,"containment":true,"opposite":"g"}]},{"name":"B","features":[{"name":"g","reference":"A","many":true,"opposite":"f"}]}]}"#,
    ),
    (
        "SupertypeCycle #/classes/1",
        r#"{"package":"p","classes":[{"name":"A","features":[{"name":"f","reference":"A","opposite":"f"}]},{"name":"B","supertypes":["B"]}]}"#,
    ),
];

/// The code and the place that the text is refused with.
fn refusal_of(alloc: Global, text: &str) -> Result<String, AllocError> {
    match read_metamodel(alloc, text.as_bytes()) {
        Err(MetamodelRefusal::At(code, place)) => {
            format!(in alloc; "{code:?} {}", place.as_str())
        }
        Err(MetamodelRefusal::NoMemory) => format!(in alloc; "no memory"),
        Ok(_) => format!(in alloc; "read"),
    }
}

/// Each text is refused so.
fn are_refused(rt: &impl Abort, alloc: Global, cases: &[(&str, &str)]) -> Result<(), Fail> {
    for (refusal, text) in cases {
        let found = refusal_of(alloc, text)?;
        assert_eq!(rt; found.as_str(), *refusal, "{text}");
    }
    Ok(())
}

#[test]
fn spells_no_metamodel(rt: HostRuntime) -> Result<(), Fail> {
    are_refused(&rt, rt.alloc(), NO_METAMODELS.as_slice())
}

#[test]
fn names_repeat_or_name_nothing(rt: HostRuntime) -> Result<(), Fail> {
    are_refused(&rt, rt.alloc(), WRONG_NAMES.as_slice())
}

#[test]
fn hierarchy_and_opposites(rt: HostRuntime) -> Result<(), Fail> {
    are_refused(&rt, rt.alloc(), WRONG_LINKS.as_slice())
}

const LIBRARY: &str =
    r#"{"package":"lib","enums":[{"name":"Genre","literals":["novel","poem"]}],"classes":[{"name":"Named","abstract":true,"features":[{"name":"name","type":"Text"}]},{"name":"Library","supertypes":["Named"],"features":[{"name":"books","reference":"Book","many":true,"containment":true,"opposite":"library"}]},{"name":"Aged","supertypes":["Named"],"features":[{"name":"age","type":"Int"}]},{"name":"Book","supertypes":["Aged","Named"],"features":[{"name":"genre","type":"Genre"},{"name":"library","reference":"Library","opposite":"books"}]}]}"#;

fn read(rt: &impl Abort, alloc: Global, text: &str) -> Metamodel {
    match read_metamodel(alloc, text.as_bytes()) {
        Ok(metamodel) => metamodel,
        Err(refusal) => panic!(rt; "{text}: {refusal:?}"),
    }
}

/// What was found is what is wanted.
fn holds<T: PartialEq + Debug + Drop>(rt: &impl Abort, found: T, wanted: T) {
    assert_eq!(rt; found, wanted);
}

fn is_counted(rt: &impl Abort, library: &Metamodel) {
    holds(rt, library.class_count(), 4);
    holds(rt, library.feature_count(), 5);
    holds(rt, library.enum_count(), 1);
    holds(rt, library.package().as_str() == "lib", true);
}

fn has_its_literals(rt: &impl Abort, library: &Metamodel) {
    assert_eq!(rt; library.enum_count(), 1);
    assert_eq!(rt; library.literal_count(EnumId(0)), 2);
    assert_eq!(rt; library.literal_name(EnumId(0), 1).as_str(), "poem");
    for (name, literal) in [("poem", Some(1)), ("play", None)] {
        assert_eq!(rt; library.literal_named(EnumId(0), name.as_bytes()), literal);
    }
}

fn has_its_names(rt: &impl Abort, library: &Metamodel) {
    for (name, class, enumeration) in [
        ("Book", Some(ClassId(3)), None),
        ("Genre", None, Some(EnumId(0))),
    ] {
        assert_eq!(rt; library.class_named(name.as_bytes()), class);
        assert_eq!(rt; library.enum_named(name.as_bytes()), enumeration);
    }
    assert_eq!(rt; library.class_count(), 4);
    assert_eq!(rt; library.class_name(ClassId(3)).as_str(), "Book");
}

fn has_its_hierarchy(rt: &impl Abort, library: &Metamodel) {
    let classes = library.class_count();
    for (from, to, conforms) in [(3, 0, true), (3, 3, true), (0, 3, false), (3, 1, false)] {
        assert!(rt; from < classes && to < classes);
        assert_eq!(rt; library.conforms(ClassId(from), ClassId(to)), conforms);
    }
    for (class, is_abstract) in [(0, true), (3, false)] {
        assert!(rt; class < classes);
        assert_eq!(rt; library.is_abstract(ClassId(class)), is_abstract);
    }
}

fn has_its_features(rt: &impl Abort, library: &Metamodel) {
    assert_eq!(rt; library.class_count(), 4);
    let expected = [FeatureId(0), FeatureId(2), FeatureId(3), FeatureId(4)];
    assert!(rt; library.features_of(ClassId(3)) == expected.as_slice());
    for (name, feature) in [("name", Some(FeatureId(0))), ("books", None)] {
        assert_eq!(rt; library.feature_named(ClassId(3), name.as_bytes()), feature);
    }
    assert_eq!(rt; library.feature_count(), 5);
    assert_eq!(rt; library.feature(FeatureId(4)).opposite, Some(FeatureId(1)));
}

#[test]
fn reads_and_copies_a_library(rt: HostRuntime) -> Result<(), Fail> {
    let library = read(&rt, rt.alloc(), LIBRARY);
    let again = library.copy(rt.alloc())?;
    for one in [&library, &again] {
        is_counted(&rt, one);
        has_its_literals(&rt, one);
        has_its_names(&rt, one);
        has_its_hierarchy(&rt, one);
        has_its_features(&rt, one);
    }
    Ok(())
}

/// A metamodel of so many classes without features.
fn classes(alloc: Global, count: u32) -> Result<String, AllocError> {
    let mut text = String::from_str(alloc, r#"{"package":"p","classes":["#)?;
    for number in 0..count {
        let comma = if number > 0 { "," } else { "" };
        let class = format!(in alloc; r#"{comma}{{"name":"C{number}"}}"#)?;
        text.push_str(&class)?;
    }
    text.push_str("]}")?;
    Ok(text)
}

#[test]
fn a_thousand_classes_are_read(rt: HostRuntime) -> Result<(), Fail> {
    let text = classes(rt.alloc(), 1000)?;
    assert_eq!(rt; read(&rt, rt.alloc(), &text).class_count(), 1000);
    Ok(())
}

#[test]
fn one_class_more_is_refused(rt: HostRuntime) -> Result<(), Fail> {
    let text = classes(rt.alloc(), 1001)?;
    are_refused(&rt, rt.alloc(), [("TooMany #", text.as_str())].as_slice())
}
