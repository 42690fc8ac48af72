ghost use Rattle.std.specs.Prelude.{◌≡◌, IfOk};
ghost use Rattle.ps_model.specs.Checks.{fault_from_filter, filter_setting_fault, new_sub_fault};

use ps_base::{OutOfMemory, Reason};
use ps_config::{Mask, SubConfig, check_sub_before_filter, check_sub_behind_filter};
use ps_filter::{Filter, FilterError};
use std::alloc::Global;

/// The first limit that the settings of a new subscription break, with that of the filter in its place between those of
/// ps_config. Fails only if out of memory.
pub fn check_new_sub(alloc: Global, config: &SubConfig) -> Result<Option<Reason>, OutOfMemory>
    ensures fault { IfOk result (λ fault. fault ≡ new_sub_fault config.now) }
{
    match check_sub_before_filter(config, Mask::WHOLE) {
        None => fault_from_filter(alloc, config),
        Some(fault) => Ok(Some(fault)),
    }
}

/// The first limit that the filter or a setting behind it breaks.
fn fault_from_filter(alloc: Global, config: &SubConfig) -> Result<Option<Reason>, OutOfMemory>
    ensures { IfOk result (λ fault. fault ≡ fault_from_filter config.now) }
{
    match filter_fault(alloc, config.filter.as_str())? {
        None => Ok(check_sub_behind_filter(config, Mask::WHOLE)),
        fault => Ok(fault),
    }
}

/// Why a text is no filter. An empty text lets every message enter.
fn filter_fault(alloc: Global, text: &str) -> Result<Option<Reason>, OutOfMemory>
    ensures { IfOk result (λ fault. fault ≡ filter_setting_fault text.now) }
{
    if text.is_empty() {
        return Ok(None);
    }
    match Filter::read(alloc, text) {
        Ok(_filter) => Ok(None),
        Err(FilterError::TooLong) => Ok(Some(Reason::FilterTooLong)),
        Err(FilterError::Mixed { at }) => Ok(Some(Reason::FilterMixed(at))),
        Err(FilterError::Syntax { at }) => Ok(Some(Reason::FilterSyntax(at))),
        Err(FilterError::OutOfMemory) => Err(OutOfMemory),
    }
}
