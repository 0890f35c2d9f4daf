//! The items that the second pass makes.

ghost use Rattle.std.specs.Prelude.{◌≡◌, ◌++◌, ◌∷◌, [], IfOk, IfNone, IsTrue, OnOk, OnErr};
ghost use Rattle.std.proofs.Props.{props};
ghost use Rattle.std.specs.List.{find};
ghost use Rattle.std.specs.Option.{option_copied};
ghost use Rattle.pool_types.specs.Extension.{has_number};
ghost use Rattle.field_rules.specs.NamesBegin.{EnumNamesBegin};
ghost use Rattle.reference_pass.specs.NamesBegin.{ExtensionNameBegins, MessageNamesBegin};
ghost use Rattle.reference_pass.specs.NamesBegin.{NamesBegin, ServiceNamesBegin};
ghost use Rattle.std.specs.BTreeMap.{get};
ghost use Rattle.reference_pass.specs.Numbered.{AreNumbered, ComesBehind, EntersFirst};
ghost use Rattle.reference_pass.specs.Numbered.{LastIsGreatest, LeadsToFirst, pair_cmp};

use crate::room::room_of_files;
use pool_types::{
    EnumDescriptorInner, ExtensionDescriptorInner, FileDescriptorInner, MessageDescriptorInner,
    ServiceDescriptorInner,
};
use std::alloc::{AllocError, Global};
use std::collections::BTreeMap;

/// The items of new messages, enums, services and extensions, in the order of their indexes.
#[derive(Drop)]
pub struct NewItems {
    pub messages: Vec<MessageDescriptorInner>,
    pub enums: Vec<EnumDescriptorInner>,
    pub services: Vec<ServiceDescriptorInner>,
    pub extensions: Vec<ExtensionDescriptorInner>,
    /// Where the first extension stands that has a message and a number. While these rise from each
    /// extension to the next, there is no such map.
    pub positions: Option<BTreeMap<(u32, u32), usize>>,
    ghost numbered: { AreNumbered extensions.items positions } by { Prim.hlevel props },
}

impl NewItems {
    /// No items, which take no memory.
    pub fn new(alloc: Global) -> NewItems
        ensures messages { result.messages.items ≡ [] }
        ensures enums { result.enums.items ≡ [] }
        ensures services { result.services.items ≡ [] }
        ensures extensions { result.extensions.items ≡ [] }
    {
        NewItems {
            messages: Vec::new(alloc),
            enums: Vec::new(alloc),
            services: Vec::new(alloc),
            extensions: Vec::new(alloc),
            positions: None,
        }
    }

    /// No items, and room for about as many as files make.
    ///
    /// # Errors
    /// `AllocError` where memory was refused.
    pub fn for_files(alloc: Global, files: &[FileDescriptorInner]) -> Result<NewItems, AllocError>
        ensures messages { IfOk result (λ items. items.messages.items ≡ []) }
        ensures enums { IfOk result (λ items. items.enums.items ≡ []) }
        ensures services { IfOk result (λ items. items.services.items ≡ []) }
        ensures extensions { IfOk result (λ items. items.extensions.items ≡ []) }
    {
        let room = room_of_files(files);
        let mut items = NewItems::new(alloc);
        items.messages.reserve(room.messages)?;
        items.enums.reserve(room.enums)?;
        items.services.reserve(room.services)?;
        items.extensions.reserve(room.extensions)?;
        Ok(items)
    }

    /// The first extension of the message with an index that has a number.
    pub(crate) fn extension(&self, message: u32, number: u32) -> Option<&ExtensionDescriptorInner>
        ensures { option_copied result
            ≡ find (has_number message number) self.now.extensions.items }
    {
        match &self.positions {
            Some(positions) => extension_at(&self.extensions, positions, (message, number)),
            None => extension_in_order(&self.extensions, message, number),
        }
    }

    /// Appends the item of a message.
    // Inlined, and with room made first, so that an item is made where it stays.
    #[inline(always)]
    pub(crate) fn push_message(&mut self, message: MessageDescriptorInner) -> Result<(), AllocError>
        ensures ok { OnOk result
            (self.new.messages.items ≡ self.old.messages.items ++ message ∷ []) }
        ensures enums { self.new.enums ≡ self.old.enums }
        ensures services { self.new.services ≡ self.old.services }
        ensures extensions { self.new.extensions ≡ self.old.extensions }
        ensures names { NamesBegin self.old.messages.items self.old.enums.items
            self.old.services.items self.old.extensions.items → MessageNamesBegin message
            → NamesBegin self.new.messages.items self.new.enums.items
            self.new.services.items self.new.extensions.items }
    {
        self.messages.reserve(1)?;
        self.messages.push_reserved(message);
        Ok(())
    }

    /// Appends the item of an enum.
    #[inline(always)]
    pub(crate) fn push_enum(&mut self, enumeration: EnumDescriptorInner) -> Result<(), AllocError>
        ensures ok { OnOk result (self.new.enums.items ≡ self.old.enums.items ++ enumeration ∷ []) }
        ensures messages { self.new.messages ≡ self.old.messages }
        ensures services { self.new.services ≡ self.old.services }
        ensures extensions { self.new.extensions ≡ self.old.extensions }
        ensures names { NamesBegin self.old.messages.items self.old.enums.items
            self.old.services.items self.old.extensions.items → EnumNamesBegin enumeration
            → NamesBegin self.new.messages.items self.new.enums.items
            self.new.services.items self.new.extensions.items }
    {
        self.enums.reserve(1)?;
        self.enums.push_reserved(enumeration);
        Ok(())
    }

    /// Appends the item of a service.
    #[inline(always)]
    pub(crate) fn push_service(&mut self, service: ServiceDescriptorInner) -> Result<(), AllocError>
        ensures ok { OnOk result
            (self.new.services.items ≡ self.old.services.items ++ service ∷ []) }
        ensures messages { self.new.messages ≡ self.old.messages }
        ensures enums { self.new.enums ≡ self.old.enums }
        ensures extensions { self.new.extensions ≡ self.old.extensions }
        ensures names { NamesBegin self.old.messages.items self.old.enums.items
            self.old.services.items self.old.extensions.items → ServiceNamesBegin service
            → NamesBegin self.new.messages.items self.new.enums.items
            self.new.services.items self.new.extensions.items }
    {
        self.services.reserve(1)?;
        self.services.push_reserved(service);
        Ok(())
    }

    /// Appends the item of an extension.
    pub(crate) fn push_extension(
        &mut self,
        extension: ExtensionDescriptorInner,
    ) -> Result<(), AllocError>
        ensures ok { OnOk result (self.new.extensions.items
            ≡ self.old.extensions.items ++ extension ∷ []) }
        ensures messages { self.new.messages ≡ self.old.messages }
        ensures enums { self.new.enums ≡ self.old.enums }
        ensures services { self.new.services ≡ self.old.services }
        ensures names { NamesBegin self.old.messages.items self.old.enums.items
            self.old.services.items self.old.extensions.items → ExtensionNameBegins extension
            → NamesBegin self.new.messages.items self.new.enums.items
            self.new.services.items self.new.extensions.items }
    {
        push_numbered(&mut self.extensions, &mut self.positions, extension)
    }
}

/// The extension that stands where a message and a number lead.
fn extension_at<'a>(
    extensions: &'a [ExtensionDescriptorInner],
    positions: &BTreeMap<(u32, u32), usize>,
    key: (u32, u32),
) -> Option<&'a ExtensionDescriptorInner>
    requires { LeadsToFirst extensions.now positions.now }
    ensures { option_copied result ≡ find (has_number key.0 key.1) extensions.now }
{
    let position = position_of(positions, key)?;
    extensions.get(position)
}

/// The first extension of a message that has a number, where these rise: a message and a number
/// behind those of the last extension have none.
fn extension_in_order(
    extensions: &[ExtensionDescriptorInner],
    message: u32,
    number: u32,
) -> Option<&ExtensionDescriptorInner>
    requires { LastIsGreatest extensions.now }
    ensures { option_copied result ≡ find (has_number message number) extensions.now }
{
    if comes_behind(extensions, message, number) {
        return None;
    }
    extensions.iter().find(|extension| extension.extendee == message && extension.number == number)
}

/// Whether a message and a number come behind those of the last extension, if there is one.
fn comes_behind(extensions: &[ExtensionDescriptorInner], message: u32, number: u32) -> bool
    ensures { IsTrue result → ComesBehind extensions.now message number }
{
    match extensions.last() {
        Some(last) => {
            last.extendee < message || last.extendee == message && last.number < number
        }
        None => true,
    }
}

/// Appends the item of an extension. Its position is entered for its message and its number, unless
/// these have risen so far.
fn push_numbered(
    extensions: &mut Vec<ExtensionDescriptorInner>,
    positions: &mut Option<BTreeMap<(u32, u32), usize>>,
    extension: ExtensionDescriptorInner,
) -> Result<(), AllocError>
    requires { AreNumbered extensions.old.items positions.old }
    ensures numbered { AreNumbered extensions.new.items positions.new }
    ensures ok { OnOk result (extensions.new.items ≡ extensions.old.items ++ extension ∷ []) }
    ensures err { OnErr result (extensions.new.items ≡ extensions.old.items) }
{
    enter_others(extensions, positions, &extension)?;
    match positions {
        Some(positions) => push_entered(extensions, positions, extension),
        None => {
            extensions.push(extension)?;
            Ok(())
        }
    }
}

/// Enters the positions of all extensions, where the next one is the first whose message and number
/// do not rise.
fn enter_others(
    extensions: &Vec<ExtensionDescriptorInner>,
    positions: &mut Option<BTreeMap<(u32, u32), usize>>,
    next: &ExtensionDescriptorInner,
) -> Result<(), AllocError>
    requires { AreNumbered extensions.now.items positions.old }
    ensures numbered { AreNumbered extensions.now.items positions.new }
    ensures behind { OnOk result (IfNone positions.new
        (ComesBehind extensions.now.items next.now.extendee next.now.number)) }
{
    if positions.is_some() || comes_behind(extensions, next.extendee, next.number) {
        return Ok(());
    }
    let entered = positions_of(*extensions.allocator(), extensions)?;
    *positions = Some(entered);
    Ok(())
}

/// The position of the first of some extensions that has a message and a number, for each of these.
fn positions_of(
    alloc: Global,
    extensions: &[ExtensionDescriptorInner],
) -> Result<BTreeMap<(u32, u32), usize>, AllocError>
    ensures { IfOk result (λ positions. LeadsToFirst extensions.now positions) }
{
    let mut positions = BTreeMap::new(alloc);
    for position in 0..extensions.len() {
        let extension = &extensions[position];
        let key = (extension.extendee, extension.number);
        enter(&mut positions, key, position)?;
    }
    Ok(positions)
}

/// Appends the item of an extension, and enters its position for its message and its number.
fn push_entered(
    extensions: &mut Vec<ExtensionDescriptorInner>,
    positions: &mut BTreeMap<(u32, u32), usize>,
    extension: ExtensionDescriptorInner,
) -> Result<(), AllocError>
    requires { LeadsToFirst extensions.old.items positions.old }
    ensures leads { LeadsToFirst extensions.new.items positions.new }
    ensures ok { OnOk result (extensions.new.items ≡ extensions.old.items ++ extension ∷ []) }
    ensures err { OnErr result (extensions.new.items ≡ extensions.old.items) }
{
    let position = extensions.len();
    let key = (extension.extendee, extension.number);
    extensions.push(extension)?;
    let entered = enter(positions, key, position);
    if entered.is_err() {
        extensions.pop();
    }
    entered
}

/// The position of a message and a number. Pairs mostly rise: one behind all others has none.
fn position_of(positions: &BTreeMap<(u32, u32), usize>, key: (u32, u32)) -> Option<usize>
    ensures { result ≡ get pair_cmp positions.now key }
{
    let (last, _) = positions.last_key_value()?;
    if *last < key {
        return None;
    }
    positions.get(&key).copied()
}

/// Enters a position for a message and a number, unless they have one.
fn enter(
    positions: &mut BTreeMap<(u32, u32), usize>,
    key: (u32, u32),
    position: usize,
) -> Result<(), AllocError>
    ensures ok { OnOk result (EntersFirst positions.old positions.new key position) }
    ensures err { OnErr result (positions.new.entries ≡ positions.old.entries) }
{
    if position_of(positions, key).is_none() {
        positions.insert(key, position)?;
    }
    Ok(())
}
