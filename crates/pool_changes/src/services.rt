//! What changes of services, so that calls go otherwise.

ghost use Rattle.std.specs.Prelude.{◌≡◌, ◌++◌, [], IsTrue, OnOk, Some};
ghost use Rattle.std.specs.Option.{option_copied};
ghost use Rattle.pool_changes.specs.Services as spec;
ghost use Rattle.pool_changes.specs.Sides.{side, versions, reader};

use crate::kinds::ElementChange;
use crate::named::service_named;
use crate::pools::parts_of;
use crate::sides::{Side, Telling};
use crate::words::message_name;
use descriptor_pool::DescriptorPool;
use plain_data::Items;
use pool_types::{MethodDescriptorInner, ServiceDescriptorInner};
use proto_types::MethodDescriptorProto;
use record_lists::find_method_proto;
use std::alloc::AllocError;
use verdict_texts::ToldFault;

/// The method of a service that has a full name.
fn method_in<'a>(
    service: &'a ServiceDescriptorInner,
    name: &str,
) -> Option<&'a MethodDescriptorInner>
    ensures { option_copied result ≡ spec.method_in service.now name.now }
{
    let methods = service.methods.as_slice();
    methods.iter().find(|method| method.id.full_name() == name)
}

/// The linked record of a method.
fn method_record<'a>(
    pool: &'a DescriptorPool,
    method: &MethodDescriptorInner,
) -> Option<&'a MethodDescriptorProto>
    ensures { option_copied result ≡ spec.method_record pool.now method.now }
{
    let file = pool.files().get(method.id.file as usize)?;
    find_method_proto(&file.raw, method.id.path())
}

/// The words for which side of a call is a stream: the client's, and the server's.
fn stream_words(client: bool, server: bool) -> &'static str
    ensures { result.now ≡ spec.stream_words client server }
{
    match (client, server) {
        (false, false) => "unary call",
        (true, false) => "stream of requests",
        (false, true) => "stream of responses",
        (true, true) => "stream of requests and responses",
    }
}

/// What the record of a method says of it.
fn streaming(pool: &DescriptorPool, method: &MethodDescriptorInner) -> &'static str
    ensures { result.now ≡ spec.streaming pool.now method.now }
{
    match method_record(pool, method) {
        Some(record) => stream_words(
            record.client_streaming.unwrap_or(false),
            record.server_streaming.unwrap_or(false),
        ),
        None => "unary call",
    }
}

/// What a method takes, as a side.
fn input<'a>(pool: &'a DescriptorPool, method: &'a MethodDescriptorInner) -> Side<'a>
    ensures { side result ≡ spec.input pool.now method.now }
{
    let name = message_name(parts_of(pool), method.input);
    Side::there(&method.id, "input ", name)
}

/// What a method gives, as a side.
fn output<'a>(pool: &'a DescriptorPool, method: &'a MethodDescriptorInner) -> Side<'a>
    ensures { side result ≡ spec.output pool.now method.now }
{
    let name = message_name(parts_of(pool), method.output);
    Side::there(&method.id, "output ", name)
}

/// Which side of a call is a stream, as a side.
fn streams<'a>(pool: &DescriptorPool, method: &'a MethodDescriptorInner) -> Side<'a>
    ensures { side result ≡ spec.streams pool.now method.now }
{
    Side::there(&method.id, streaming(pool, method), "")
}

impl Telling<'_> {
    /// Whether two methods take and give messages of the same names, in streams or not.
    #[tactic(auto, using(crate::proofs::Same::method_none))]
    fn is_method_like(self, method: &MethodDescriptorInner, kept: &MethodDescriptorInner) -> bool
        ensures { IsTrue result
            → spec.kept_method_changes (versions self.entry) method.now kept.now ≡ [] }
    {
        let (writer, reader) = (self.writer(), self.reader());
        let (before, after) = (parts_of(writer), parts_of(reader));
        message_name(before, method.input) == message_name(after, kept.input)
            && message_name(before, method.output) == message_name(after, kept.output)
            && streaming(writer, method) == streaming(reader, kept)
    }

    /// Appends what a reader's method changes of a writer's with its name.
    fn tell_kept_method(
        self,
        told: &mut Items<ToldFault>,
        method: &MethodDescriptorInner,
        kept: &MethodDescriptorInner,
    ) -> Result<(), AllocError>
        ensures { OnOk result (told.new ≡ told.old
            ++ spec.kept_method_changes (versions self.entry) method.now kept.now) }
    {
        if self.is_method_like(method, kept) {
            return Ok(());
        }
        let (writer, reader) = (self.writer(), self.reader());
        let (before, after) = (input(writer, method), input(reader, kept));
        self.tell_differing(told, ElementChange::MethodInput.between(before, after))?;
        let (before, after) = (output(writer, method), output(reader, kept));
        self.tell_differing(told, ElementChange::MethodOutput.between(before, after))?;
        let (before, after) = (streams(writer, method), streams(reader, kept));
        self.tell_differing(told, ElementChange::MethodStreaming.between(before, after))
    }

    /// Appends what a reader's service changes of a writer's method.
    fn tell_method(
        self,
        told: &mut Items<ToldFault>,
        service: &ServiceDescriptorInner,
        method: &MethodDescriptorInner,
    ) -> Result<(), AllocError>
        ensures { OnOk result (told.new ≡ told.old
            ++ spec.method_changes (versions self.entry) service.now method.now
            (spec.method_in service.now method.now.id.full_name)) }
    {
        match method_in(service, method.id.full_name()) {
            Some(kept) => self.tell_kept_method(told, method, kept),
            None => {
                let before = Side::there(&method.id, "method", "");
                let after = Side::around(&service.id, "method");
                self.tell_between(told, ElementChange::MethodRemoved.between(before, after))
            }
        }
    }

    /// Appends what a reader's service changes of a writer's with its name.
    fn tell_methods(
        self,
        told: &mut Items<ToldFault>,
        service: &ServiceDescriptorInner,
        kept: &ServiceDescriptorInner,
    ) -> Result<(), AllocError>
        ensures { OnOk result (told.new ≡ told.old
            ++ spec.service_changes (versions self.entry) service.now (Some kept.now)) }
    {
        for method in service.methods.as_slice() {
            self.tell_method(told, kept, method)?;
        }
        Ok(())
    }

    /// Appends what a reader changes of a writer's service.
    fn tell_service(
        self,
        told: &mut Items<ToldFault>,
        service: &ServiceDescriptorInner,
    ) -> Result<(), AllocError>
        ensures { OnOk result (told.new ≡ told.old
            ++ spec.service_changes (versions self.entry) service.now
            (spec.service_named (reader (versions self.entry)) service.now.id.full_name)) }
    {
        match service_named(self.alloc, self.reader(), service.id.full_name())? {
            Some(kept) => self.tell_methods(told, service, kept),
            None => {
                let removed = ElementChange::ServiceRemoved;
                self.tell_between(told, self.removed(removed, &service.id, "service"))
            }
        }
    }

    /// Appends what a reader changes of all services of a writer.
    pub(crate) fn tell_services(self, told: &mut Items<ToldFault>) -> Result<(), AllocError>
        ensures { OnOk result (told.new ≡ told.old
            ++ spec.services_changes (versions self.entry)) }
    {
        for service in self.writer().services() {
            self.tell_service(told, service)?;
        }
        Ok(())
    }
}
