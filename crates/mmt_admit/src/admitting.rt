//! Admission of a cast.

ghost use Rattle.std.specs.Prelude.{◌≡◌, Some, None, IfErr, IfOk, OnOk};
ghost use Rattle.mmt_admit.specs.Faults.{as_fault, fault_value, IsReadable};
ghost use Rattle.mmt_model.specs.Admission.{fault};

use crate::answers::NotAdmitted;
use crate::copies::first_copy;
use crate::live::first_live;
use crate::loads::first_load;
use crate::numbers::packet_faults;
use crate::params::params_fault;
use crate::starts::{first_mpu, start_fault};
use crate::units::unit_faults;
use mmt_model::Cast;
use std::marker::Model;

/// A cast without a fault, which it lends. Contracts see it as that cast.
#[derive(Debug, Drop)]
pub struct Admitted<'a> {
    cast: &'a Cast,
}

impl<'a> Model for Admitted<'a> {
    ghost use Rattle.std.specs.Prelude.{◌≡◌, None};
    ghost use Rattle.mmt_model.specs.Admission.{fault};
    ghost use Rattle.mmt_model.specs.declared.casts.Cast.{Cast};

    ghost Value = { Cast };

    ghost view = { λ a. a.cast.now };

    ghost invariant = { λ a. fault a.cast.now ≡ None };
}

impl<'a> Admitted<'a> {
    ghost use Rattle.std.specs.Prelude.{◌≡◌, None};
    ghost use Rattle.mmt_model.specs.Admission.{fault};

    /// The cast.
    pub fn cast(&self) -> &'a Cast
        ensures same { result.now ≡ self.now }
        ensures admitted { fault result.now ≡ None }
    {
        self.cast
    }
}

/// The first fault of a cast.
fn first_fault(cast: &Cast) -> Option<NotAdmitted>
    requires { IsReadable cast.now }
    ensures { as_fault result ≡ fault cast.now }
{
    let packets = cast.packets.as_slice();
    let params = params_fault(&cast.params);
    if params.is_some() {
        return params;
    }
    let of_packets = packet_faults(packets);
    if of_packets.gap.is_some() {
        return of_packets.gap;
    }
    if of_packets.number.is_some() {
        return of_packets.number;
    }
    let of_units = unit_faults(cast);
    if of_units.due.is_some() {
        return of_units.due;
    }
    let copy = first_copy(cast);
    if copy.is_some() {
        return copy;
    }
    let load = first_load(cast);
    if load.is_some() {
        return load;
    }
    let live = first_live(cast);
    if live.is_some() {
        return live;
    }
    if of_units.key.is_some() {
        return of_units.key;
    }
    let start = start_fault(packets);
    if start.is_some() {
        return start;
    }
    first_mpu(cast)
}

/// Admits a cast, or tells its first fault. It goes over the packets, units and MPUs a fixed number of
/// times, and for each table copy over the MPUs that it names. In a cast of more than 1,024 MPUs it counts
/// once for a stretch of ticks those that are named by its end and last beyond its start. Where they are
/// too many, it counts those at the table copy alone, so twice for a table copy at most. It takes no memory.
///
/// # Errors
///
/// The first fault, exactly where there is one.
pub fn admit(cast: &Cast) -> Result<Admitted<'_>, NotAdmitted>
    requires { IsReadable cast.now }
    ensures admitted { IfOk result (λ a. a ≡ cast.now) }
    ensures none { OnOk result (fault cast.now ≡ None) }
    ensures refused { IfErr result (λ e. fault cast.now ≡ Some (fault_value e)) }
{
    match first_fault(cast) {
        Some(found) => Err(found),
        None => Ok(Admitted { cast }),
    }
}
