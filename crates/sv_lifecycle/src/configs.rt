//! Configurations of components.

ghost use Rattle.std.specs.Prelude.{◌≡◌, IfOk, map};
ghost use Rattle.sv_text.specs.Gives.{GivesAnswer};
ghost use Rattle.sv_lifecycle.specs.Calls.{config_at, config_of, params_of};

use std::alloc::Global;
use sv_component::{Config, Param};
use sv_descriptor::{InitParam, WebApp};
use sv_live::Place;
use sv_text::{Listed, NoMemory, Text};

/// Copies the configurations of the components at these places.
pub(crate) fn configs(
    alloc: Global,
    app: &WebApp,
    places: &[Place],
) -> Result<Vec<Config>, NoMemory>
    ensures { IfOk result (λ all. all.items ≡ map (config_at app.now) places.now) }
{
    let mut all = Vec::with_capacity(alloc, places.len())?;
    for place in places {
        all.push(config_at(alloc, app, *place)?)?;
    }
    Ok(all)
}

fn config_at(alloc: Global, app: &WebApp, place: Place) -> Result<Config, NoMemory>
    ensures { GivesAnswer result (config_at app.now place) }
{
    match place {
        Place::Filter(place) => match app.filters.as_slice().get(place) {
            Some(filter) => config_of(
                alloc,
                filter.filter_name.as_str(),
                filter.init_params.as_slice(),
            ),
            None => config_of(alloc, "", &[]),
        },
        Place::Servlet(place) => match app.servlets.as_slice().get(place) {
            Some(servlet) => config_of(
                alloc,
                servlet.servlet_name.as_str(),
                servlet.init_params.as_slice(),
            ),
            None => config_of(alloc, "", &[]),
        },
    }
}

fn config_of(alloc: Global, name: &str, params: &[InitParam]) -> Result<Config, NoMemory>
    ensures { GivesAnswer result (config_of name.now params.now) }
{
    let name = Text::copy_of(alloc, name)?;
    let params = params_of(alloc, params)?;
    Ok(Config { name, params })
}

fn params_of(alloc: Global, params: &[InitParam]) -> Result<Listed<Param>, NoMemory>
    ensures { GivesAnswer result (params_of params.now) }
{
    let mut copies = Vec::with_capacity(alloc, params.len())?;
    for param in params {
        copies.push(param_of(alloc, param)?)?;
    }
    Ok(Listed::from_vec(copies))
}

fn param_of(alloc: Global, param: &InitParam) -> Result<Param, NoMemory>
    ensures { GivesAnswer result (record { name = param.now.name; value = param.now.value }) }
{
    Ok(Param {
        name: Text::copy_of(alloc, param.name.as_str())?,
        value: Text::copy_of(alloc, param.value.as_str())?,
    })
}
