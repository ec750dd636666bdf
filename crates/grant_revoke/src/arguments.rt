//! The arguments of a call on rights.

ghost use Rattle.std.specs.Prelude.{◌≡◌, IfOk, IfErr, OnOk, true, false};
ghost use Rattle.portal_base.specs.Names.{is_app_name};
ghost use Rattle.rights_rule.specs.Rights.{are_right_names, rights_named};
ghost use Rattle.grant_revoke.specs.declared.plan.RightsError.TheVariants.{InvalidArgument};
ghost use Rattle.grant_revoke.specs.Arguments.{RefusesName};

use crate::plan::RightsError;
use portal_base::list::List;
use portal_base::names::{AppId, NameError};
use portal_base::text::Text;
use rights_rule::{Rights, read_names};
use std::alloc::Global;

/// The rights that a call lists.
pub fn listed(names: &List<Text>) -> Result<Rights, RightsError>
    ensures known { OnOk result (are_right_names names.now ≡ true) }
    ensures ok { IfOk result (λ rights. rights ≡ rights_named names.now) }
    ensures err { IfErr result (λ error. (error ≡ InvalidArgument)
        × (are_right_names names.now ≡ false)) }
{
    match read_names(names) {
        Ok(rights) => Ok(rights),
        Err(_) => Err(RightsError::InvalidArgument),
    }
}

/// The application that a call names.
pub fn named(alloc: Global, text: &[u8]) -> Result<AppId, RightsError>
    ensures ok { IfOk result (λ app. (app ≡ text.now) × (is_app_name text.now ≡ true)) }
    ensures err { IfErr result (RefusesName text.now) }
{
    match AppId::read(alloc, text) {
        Ok(app) => Ok(app),
        Err(NameError::Memory) => Err(RightsError::Memory),
        Err(NameError::BadName { .. }) => Err(RightsError::InvalidArgument),
    }
}
