ghost use Rattle.std.specs.Prelude.{◌≡◌};
ghost use Rattle.wb_program.specs.CodeNames as names;

use wb_metamodel::MetamodelCode;
use wb_model_json::ModelCode;
use wb_viewpoint::ViewpointCode;

/// The name of a code, as it is printed.
pub fn metamodel_code_name(code: MetamodelCode) -> &'static str
    ensures { result.now ≡ names.metamodel_code_name code }
{
    match code {
        MetamodelCode::BadJson => "BadJson",
        MetamodelCode::BadShape => "BadShape",
        MetamodelCode::DuplicateName => "DuplicateName",
        MetamodelCode::UnknownName => "UnknownName",
        MetamodelCode::SupertypeCycle => "SupertypeCycle",
        MetamodelCode::OppositeMismatch => "OppositeMismatch",
        MetamodelCode::TooMany => "TooMany",
    }
}

/// The name of a code, as it is printed.
pub fn viewpoint_code_name(code: ViewpointCode) -> &'static str
    ensures { result.now ≡ names.viewpoint_code_name code }
{
    match code {
        ViewpointCode::BadJson => "BadJson",
        ViewpointCode::BadShape => "BadShape",
        ViewpointCode::TooMany => "TooMany",
    }
}

/// The name of a code, as it is printed.
pub fn model_code_name(code: ModelCode) -> &'static str
    ensures { result.now ≡ names.model_code_name code }
{
    match code {
        ModelCode::BadJson => "BadJson",
        ModelCode::BadShape => "BadShape",
        ModelCode::TooMany => "TooMany",
        ModelCode::DuplicateObject => "DuplicateObject",
        ModelCode::UnknownName => "UnknownName",
        ModelCode::Broken1 => "Broken1",
        ModelCode::Broken2 => "Broken2",
        ModelCode::Broken3 => "Broken3",
        ModelCode::Broken4 => "Broken4",
        ModelCode::Broken5 => "Broken5",
        ModelCode::Broken6 => "Broken6",
        ModelCode::Broken7 => "Broken7",
        ModelCode::Broken8 => "Broken8",
        ModelCode::Broken9 => "Broken9",
        ModelCode::Broken10 => "Broken10",
    }
}
