//! The text of an event, without its line feed.

ghost use Rattle.std.specs.Prelude.{◌≡◌, Some};
ghost use Rattle.schedule_text.specs.Encoding.{request_text, plain_text, event_text};

use crate::event::{Event, Plain};
use crate::words::{service_word, side_word, timer_word};
use mon_wire::Request;
use std::fmt;

/// A request, to be displayed.
#[derive(Drop)]
struct Asked<'a> {
    request: &'a Request,
}

impl<'a> fmt::Display for Asked<'a> {
    ghost output = { λ asked. Some (request_text asked.request.now) };

    fn fmt<W: fmt::Write>(&self, f: &mut fmt::Formatter<W>) -> fmt::Result {
        match self.request {
            Request::Set { key, value } => {
                let key = key.as_str();
                let value = value.as_str();
                write!(f, "set {key} {value}")
            }
            Request::Remove { key } => {
                let key = key.as_str();
                write!(f, "remove {key}")
            }
            Request::Log { text } => {
                let text = text.as_str();
                write!(f, "log {text}")
            }
            Request::Show { service } => {
                let service = service_word(*service);
                write!(f, "show {service}")
            }
            Request::Since { service, version } => {
                let service = service_word(*service);
                let version = version.get();
                write!(f, "since {service} {version}")
            }
        }
    }
}

impl fmt::Display for Plain {
    ghost output = { λ plain. Some (plain_text plain) };

    fn fmt<W: fmt::Write>(&self, f: &mut fmt::Formatter<W>) -> fmt::Result {
        match self {
            Plain::Start { rank, at } => {
                let rank = rank.get();
                let at = at.get();
                write!(f, "start {rank} {at}")
            }
            Plain::Deliver { message, at } => {
                let at = at.get();
                write!(f, "deliver {message} {at}")
            }
            Plain::Timer { rank, kind, at } => {
                let rank = rank.get();
                let kind = timer_word(*kind);
                let at = at.get();
                write!(f, "timer {rank} {kind} {at}")
            }
            Plain::Client {
                rank,
                at,
                session,
                request,
            } => {
                let rank = rank.get();
                let at = at.get();
                let client = session.client;
                let id = session.id;
                let asked = Asked { request };
                write!(f, "client {rank} {at} {client} {id} {asked}")
            }
        }
    }
}

impl fmt::Display for Event {
    ghost output = { λ event. Some (event_text event) };

    fn fmt<W: fmt::Write>(&self, f: &mut fmt::Formatter<W>) -> fmt::Result {
        match self {
            Event::Plain(plain) => write!(f, "{plain}"),
            Event::Crash {
                disk,
                call,
                image,
                event,
            } => {
                let disk = side_word(*disk);
                write!(f, "crash {disk} {call} {image} {event}")
            }
            Event::Fail {
                disk,
                call,
                image,
                event,
            } => {
                let disk = side_word(*disk);
                write!(f, "fail {disk} {call} {image} {event}")
            }
        }
    }
}
