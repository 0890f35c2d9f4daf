//! Counts while they are summed.

ghost use Rattle.std.specs.Prelude.{◌≡◌};
ghost use Rattle.std.specs.List.{list_all};
ghost use Rattle.record_walk.specs.Counts.{lists_fit, fits_list};
ghost use Rattle.record_walk.specs.Protos.{of_file, of_message, of_enum, of_service};

use super::{CountKind, Counts};
use plain_data::Items;
use proto_types::{
    DescriptorProto, EnumDescriptorProto, FileDescriptorProto, ServiceDescriptorProto,
};

/// The most entries of a list.
const LIST_LIMIT: usize = 2_147_483_647;

/// The most of each numbered kind that a pool holds.
const COUNT_LIMIT: u64 = 4_294_967_295;

/// Nothing counted yet.
const NOTHING: Totals = Totals {
    files: 0,
    messages: 0,
    enums: 0,
    services: 0,
    extensions: 0,
};

/// How many of each numbered kind there are; past the greatest number a count stays there.
#[derive(Clone, Copy)]
pub(crate) struct Totals {
    files: u64,
    messages: u64,
    enums: u64,
    services: u64,
    extensions: u64,
}

impl Totals {
    ghost use Rattle.record_walk.specs.Counts.{within_limit};
    ghost use Rattle.record_walk.specs.Totals.{saturated, unsaturated, sums, totals_of_enums};
    ghost use Rattle.record_walk.specs.Totals.{totals_of_services, totals_of_message};
    ghost use Rattle.record_walk.specs.Totals.{totals_of_messages, totals_of_file, totals_of_files};

    /// Counts as they are summed.
    pub(super) fn new(counts: Counts) -> Totals
        ensures { result ≡ saturated counts }
    {
        Totals {
            files: u64::from(counts.files),
            messages: u64::from(counts.messages),
            enums: u64::from(counts.enums),
            services: u64::from(counts.services),
            extensions: u64::from(counts.extensions),
        }
    }

    /// The sums of two counts.
    pub(super) fn plus(self, other: Totals) -> Totals
        ensures { result ≡ sums self other }
    {
        Totals {
            files: self.files.saturating_add(other.files),
            messages: self.messages.saturating_add(other.messages),
            enums: self.enums.saturating_add(other.enums),
            services: self.services.saturating_add(other.services),
            extensions: self.extensions.saturating_add(other.extensions),
        }
    }

    /// Counts that a pool can hold, or the first that is too large.
    pub(super) fn within_limits(self) -> Result<Counts, CountKind>
        ensures { result ≡ within_limit (unsaturated self) }
    {
        if self.files > COUNT_LIMIT {
            return Err(CountKind::Files);
        }
        if self.messages > COUNT_LIMIT {
            return Err(CountKind::Messages);
        }
        if self.enums > COUNT_LIMIT {
            return Err(CountKind::Enums);
        }
        if self.services > COUNT_LIMIT {
            return Err(CountKind::Services);
        }
        if self.extensions > COUNT_LIMIT {
            return Err(CountKind::Extensions);
        }
        Ok(Counts {
            files: self.files as u32,
            messages: self.messages as u32,
            enums: self.enums as u32,
            services: self.services as u32,
            extensions: self.extensions as u32,
        })
    }

    /// What files declare, or none where a list is too long.
    pub(super) fn of_files(files: &[FileDescriptorProto]) -> Option<Totals>
        ensures { result ≡ totals_of_files files.now }
    {
        let mut sum = NOTHING;
        for file in files {
            sum = sum.plus(Totals::of_file(file)?);
        }
        Some(sum)
    }

    /// What a file declares, or none where a list is too long.
    fn of_file(file: &FileDescriptorProto) -> Option<Totals>
        ensures { result ≡ totals_of_file file.now }
    {
        if !file_lists_fit(file) {
            return None;
        }
        let own = Totals {
            files: 1,
            extensions: file.extension.as_slice().len() as u64,
            ..NOTHING
        };
        let messages = Totals::of_messages(file.message_type.as_slice())?;
        let enums = Totals::of_enums(file.enum_type.as_slice())?;
        let services = Totals::of_services(file.service.as_slice())?;
        Some(own.plus(messages).plus(enums).plus(services))
    }

    /// What some messages declare, or none where a list is too long.
    fn of_messages(messages: &[DescriptorProto]) -> Option<Totals>
        ensures { result ≡ totals_of_messages messages.now }
    {
        let mut sum = NOTHING;
        for message in messages {
            sum = sum.plus(Totals::of_message(message)?);
        }
        Some(sum)
    }

    /// What a message declares, itself too, or none where a list is too long.
    fn of_message(message: &DescriptorProto) -> Option<Totals>
        ensures { result ≡ totals_of_message message.now }
    {
        if !message_lists_fit(message) {
            return None;
        }
        let own = Totals {
            messages: 1,
            extensions: message.extension.as_slice().len() as u64,
            ..NOTHING
        };
        let mut sum = own.plus(Totals::of_enums(message.enum_type.as_slice())?);
        for nested in message.nested_type.as_slice() {
            sum = sum.plus(Totals::of_message(nested)?);
        }
        Some(sum)
    }

    /// What some enums declare, or none where a list is too long.
    fn of_enums(enums: &[EnumDescriptorProto]) -> Option<Totals>
        ensures { result ≡ totals_of_enums enums.now }
    {
        enum_lists_fit(enums).then_some(Totals {
            enums: enums.len() as u64,
            ..NOTHING
        })
    }

    /// What some services declare, or none where a list is too long.
    fn of_services(services: &[ServiceDescriptorProto]) -> Option<Totals>
        ensures { result ≡ totals_of_services services.now }
    {
        service_lists_fit(services).then_some(Totals {
            services: services.len() as u64,
            ..NOTHING
        })
    }
}

/// Whether a list is short enough.
fn fits<T>(list: &Items<T>) -> bool
    ensures { result ≡ fits_list list.now }
{
    list.as_slice().len() <= LIST_LIMIT
}

/// Whether each list of a file's own is short enough.
fn file_lists_fit(file: &FileDescriptorProto) -> bool
    ensures { result ≡ lists_fit (of_file file.now) }
{
    fits(&file.dependency)
        && fits(&file.message_type)
        && fits(&file.enum_type)
        && fits(&file.service)
        && fits(&file.extension)
}

/// Whether each list of a message's own is short enough.
fn message_lists_fit(message: &DescriptorProto) -> bool
    ensures { result ≡ lists_fit (of_message message.now) }
{
    fits(&message.field)
        && fits(&message.nested_type)
        && fits(&message.enum_type)
        && fits(&message.extension)
        && fits(&message.oneof_decl)
        && fits(&message.extension_range)
        && fits(&message.reserved_range)
}

/// Whether each list of some enums is short enough.
fn enum_lists_fit(enums: &[EnumDescriptorProto]) -> bool
    ensures { result ≡ list_all (λ e. lists_fit (of_enum e)) enums.now }
{
    for each in enums {
        if !(fits(&each.value) && fits(&each.reserved_range)) {
            return false;
        }
    }
    true
}

/// Whether each list of some services is short enough.
fn service_lists_fit(services: &[ServiceDescriptorProto]) -> bool
    ensures { result ≡ list_all (λ s. lists_fit (of_service s)) services.now }
{
    for service in services {
        if !fits(&service.method) {
            return false;
        }
    }
    true
}
