//! A section of a pcapng file: its byte order, and its interfaces so far.
ghost use Rattle.std.specs.Prelude.{◌≤◌, vec_capacity};

use crate::content::{Content, Interface, captured_up_to, is_section_header, packet_on};
use crate::numbers::{u16_at, u32_at};
use relay_num::NoMemory;
use std::alloc::Global;

/// The most interfaces of a section.
const MOST_INTERFACES: usize = 256;

/// A section. Memory for all the interfaces that it may have is there from the start.
#[derive(Drop)]
pub struct Section {
    pub is_big: bool,
    pub interfaces: Vec<Interface>,
    ghost room: { 256 ≤ vec_capacity interfaces },
}

impl Section {
    ghost use Rattle.std.specs.Prelude.{◌≡◌, ◌≤◌, [], length, min, vec_len, IfOk, IfSome, true, false};
    ghost use Rattle.capture_feed.specs.Pcapng.{content, section_at, is_known, has_head, behind, section_header, interface_description, enhanced_packet, simple_packet};
    ghost use Rattle.capture_feed.specs.Sections.{plain_section, IsWithin, IsRoomFor};

    /// No section yet.
    pub fn new(alloc: Global) -> Result<Section, NoMemory>
        ensures { IfOk result (λ section. plain_section section ≡ record { is_big = false; interfaces = [] }) }
    {
        match Vec::with_capacity(alloc, MOST_INTERFACES) {
            Ok(interfaces) => Ok(Section {
                is_big: false,
                interfaces,
            }),
            Err(_) => Err(NoMemory),
        }
    }

    /// Begins a new section where the block at the front is a section header, and says whether its
    /// byte-order magic is known; another block goes on in this section.
    pub fn enter(&mut self, rest: &[u8]) -> bool
        requires { has_head rest.now ≡ true }
        ensures section { plain_section self.new ≡ section_at (plain_section self.old) rest.now }
        ensures known { result ≡ is_known rest.now }
    {
        if !is_section_header(rest) {
            return true;
        }
        self.interfaces.clear();
        if rest[8..12] == [0x1a, 0x2b, 0x3c, 0x4d] {
            self.is_big = true;
            return true;
        }
        if rest[8..12] == [0x4d, 0x3c, 0x2b, 0x1a] {
            self.is_big = false;
            return true;
        }
        false
    }

    /// What a section header of this total length says: its major version is 1.
    fn section_header(&self, rest: &[u8], total: u32) -> Option<Content>
        requires { min total 28 ≤ length rest.now }
        ensures { result ≡ section_header (plain_section self.now) total rest.now }
    {
        if total >= 28 && u16_at(rest, 12, self.is_big) == 1 {
            return Some(Content::Passed);
        }
        None
    }

    /// What an interface description says: at most 256 interfaces are one section's.
    fn interface_description(&self, rest: &[u8], total: u32) -> Option<Content>
        requires { min total 28 ≤ length rest.now }
        ensures content { result ≡ interface_description (plain_section self.now) total rest.now }
        ensures within { IfSome result (λ content. IsWithin total (vec_len self.now.interfaces) content) }
    {
        if total >= 20 && self.interfaces.len() < MOST_INTERFACES {
            return Some(Content::Description(Interface {
                link_type: u16_at(rest, 8, self.is_big),
                snap_length: u32_at(rest, 12, self.is_big),
            }));
        }
        None
    }

    /// What an enhanced packet says: it has an interface of the section, and its captured bytes are
    /// within it.
    fn enhanced_packet(&self, rest: &[u8], total: u32) -> Option<Content>
        requires { min total 28 ≤ length rest.now }
        ensures content { result ≡ enhanced_packet (plain_section self.now) total rest.now }
        ensures within { IfSome result (λ content. IsWithin total (vec_len self.now.interfaces) content) }
    {
        if total < 32 {
            return None;
        }
        let number = u32_at(rest, 8, self.is_big) as usize;
        match self.interfaces.as_slice().get(number) {
            Some(interface) => packet_on(*interface, 28, u32_at(rest, 20, self.is_big), total),
            None => None,
        }
    }

    /// What a simple packet says: it is one of the first interface, captured up to its snap length.
    fn simple_packet(&self, rest: &[u8], total: u32) -> Option<Content>
        requires { min total 28 ≤ length rest.now }
        ensures content { result ≡ simple_packet (plain_section self.now) total rest.now }
        ensures within { IfSome result (λ content. IsWithin total (vec_len self.now.interfaces) content) }
    {
        if total < 16 {
            return None;
        }
        match self.interfaces.as_slice().get(0) {
            Some(interface) => {
                let captured = captured_up_to(interface.snap_length, u32_at(rest, 8, self.is_big));
                packet_on(*interface, 12, captured, total)
            }
            None => None,
        }
    }

    /// What the block of this total length at the front says; `None` where it isn't sound.
    pub fn content(&self, rest: &[u8], total: u32) -> Option<Content>
        requires long { 12 ≤ total }
        requires held { min total 28 ≤ length rest.now }
        ensures content { result ≡ content (plain_section self.now) total rest.now }
        ensures within { IfSome result (λ content. IsWithin total (vec_len self.now.interfaces) content) }
    {
        if is_section_header(rest) {
            return self.section_header(rest, total);
        }
        match u32_at(rest, 0, self.is_big) {
            1 => self.interface_description(rest, total),
            3 => self.simple_packet(rest, total),
            6 => self.enhanced_packet(rest, total),
            _ => Some(Content::Passed),
        }
    }

    /// Goes on behind a block that says this.
    pub fn go_on(&mut self, content: Content)
        requires { IsRoomFor (vec_len self.old.interfaces) content }
        ensures { plain_section self.new ≡ behind (plain_section self.old) content }
    {
        if let Content::Description(interface) = content {
            let _ = self.interfaces.push(interface);
        }
    }
}
