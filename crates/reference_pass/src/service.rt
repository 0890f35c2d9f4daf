ghost use Rattle.std.specs.Prelude.{◌≡◌, ◌<◌, ◌^◌, ◌++◌, [], ◌∷◌, true, IfOk, OnOk};
ghost use Rattle.std.specs.List.{All};
ghost use Rattle.plain_data.specs.Lists.{listed};
ghost use Rattle.record_walk.specs.Counts.{fits_list, lists_fit};
ghost use Rattle.record_walk.specs.FullNames.{EndsWithName};
ghost use Rattle.record_walk.specs.Protos.{of_service};
ghost use Rattle.name_resolution.specs.References.{reference_fault};
ghost use Rattle.reference_pass.specs.SecondPass.{faults_of_methods, method_faults, service_faults};
ghost use Rattle.reference_pass.specs.Items.{service_item, method_item, method_items};
ghost use Rattle.reference_pass.specs.References.{message_found, message_index, method_at};
ghost use Rattle.reference_pass.specs.References.{index_or_max};
ghost use Rattle.field_rules.specs.NamesBegin.{BeginsAtBoundary};
ghost use Rattle.record_walk.specs.Place.{inside_of, service_at};
ghost use Rattle.reference_pass.specs.NamesBegin.{ServiceNamesBegin};
ghost use Rattle.reference_pass.specs.Setting.{resolve};
ghost use Rattle.reference_pass.specs.Reading.{ReadingTells, setting_of};

use crate::reading::Reading;
use crate::references::{index_or_max, message_index_or_max};
use field_rules::{ListPlace, identity, identity_inside};
use name_resolution::ResolveNameFilter;
use plain_data::Items;
use pool_types::{MethodDescriptorInner, ServiceDescriptorInner};
use proto_types::{MethodDescriptorProto, ServiceDescriptorProto, tag};
use record_walk::Place;
use std::alloc::AllocError;

/// The item of a service, with its methods. What these break is appended to `reading`, one method
/// after another, its input before its output. Its list is short enough for a pool. Where its name
/// ends its full name, the names of the item begin where a character begins.
///
/// # Errors
/// `AllocError` where memory was refused.
// Inlined, so that the item is made where it stays.
#[inline(always)]
pub fn read_service(
    reading: &mut Reading,
    place: Place,
    service: &ServiceDescriptorProto,
) -> Result<ServiceDescriptorInner, AllocError>
    requires { lists_fit (of_service service.now) ≡ true }
    ensures item { IfOk result (λ item. item
        ≡ service_item (setting_of reading.old)
        (service_at place.entry service.now) service.now) }
    ensures begins { IfOk result (λ item.
        EndsWithName (service_at place.entry service.now) → ServiceNamesBegin item) }
    ensures faults { OnOk result (ReadingTells reading.old reading.new
        (service_faults (setting_of reading.old)
        (service_at place.entry service.now) service.now)) }
{
    let methods = read_methods(reading, place, service.method.as_slice())?;
    Ok(ServiceDescriptorInner {
        id: identity(reading.faults.alloc, place, service.name())?,
        methods: Items::from_vec(methods),
    })
}

fn read_methods(
    reading: &mut Reading,
    service: Place,
    methods: &[MethodDescriptorProto],
) -> Result<Vec<MethodDescriptorInner>, AllocError>
    requires { fits_list methods.now ≡ true }
    ensures items { IfOk result (λ items. items.items
        ≡ method_items (setting_of reading.old) (inside_of service.entry) methods.now) }
    ensures begin { IfOk result (λ items. All (λ m. BeginsAtBoundary m.id) items.items) }
    ensures faults { OnOk result (ReadingTells reading.old reading.new
        (faults_of_methods (setting_of reading.old) (inside_of service.entry) methods.now)) }
{
    let mut items = Vec::with_capacity(reading.faults.alloc, methods.len())?;
    for (position, method) in methods.iter().enumerate() {
        // Room first, so that an item is made where it stays.
        items.reserve(1)?;
        items.push_reserved(read_method(reading, service, position, method)?);
    }
    Ok(items)
}

/// The item of the method of a service with a position. What the method breaks is appended to
/// `reading`.
fn read_method(
    reading: &mut Reading,
    service: Place,
    position: usize,
    method: &MethodDescriptorProto,
) -> Result<MethodDescriptorInner, AllocError>
    requires { position < 2 ^ 31 }
    ensures item { IfOk result (λ item. item
        ≡ method_item (setting_of reading.old)
        (method_at (inside_of service.entry) position method.now) method.now) }
    ensures begins { IfOk result (λ item. BeginsAtBoundary item.id) }
    ensures faults { OnOk result (ReadingTells reading.old reading.new
        (method_faults (setting_of reading.old)
        (method_at (inside_of service.entry) position method.now) method.now)) }
{
    let alloc = reading.faults.alloc;
    let at = ListPlace {
        tag: tag::service::METHOD,
        position,
    };
    let id = identity_inside(alloc, service, at, method.name())?;
    let place = Place {
        file: service.file,
        parent: Some(service.index),
        index: position as u32,
        path: id.path.as_slice(),
        full_name: id.full_name.as_str(),
    };
    let input = message_index(reading, place, tag::method::INPUT_TYPE, method.input_type())?;
    let output = message_index(
        reading,
        place,
        tag::method::OUTPUT_TYPE,
        method.output_type(),
    )?;
    Ok(MethodDescriptorInner { id, input, output })
}

/// The index of the message that the part of a method with a tag names; where it names none, that
/// is appended to `reading`.
fn message_index(
    reading: &mut Reading,
    place: Place,
    tag: i32,
    written: &str,
) -> Result<u32, AllocError>
    ensures index { IfOk result (λ index. index
        ≡ index_or_max (message_found (resolve (setting_of reading.old)
        place.entry.file place.entry.full_name.now ResolveNameFilter.Message written.now))) }
    ensures faults { OnOk result (ReadingTells reading.old reading.new
        (listed (reference_fault (setting_of reading.old).files written.now place.entry.file
        (place.entry.path.now ++ tag ∷ []) (resolve (setting_of reading.old)
        place.entry.file place.entry.full_name.now ResolveNameFilter.Message written.now)))) }
{
    if let Some(def) = reading.find(place, ResolveNameFilter::Message, written) {
        return Ok(index_or_max(def));
    }
    let meaning = reading.resolve_message(place, tag, written)?;
    Ok(message_index_or_max(&meaning))
}
