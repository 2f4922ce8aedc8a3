//! What each request gets.
ghost use Rattle.std.specs.Prelude.{◌≡◌, false, OnOk};
ghost use Rattle.http_server.specs.Response.{IsBlank};
ghost use Rattle.hx_metrics.specs.Answers.{Answers, GivesMetrics, GivesHealth, status_of, health_text};

use crate::asked::Asked;
use crate::metrics::write_metrics;
use crate::watched::{Health, Watched};
use bytes::{BufMut, Bytes};
use http::{HeaderValue, Request, StatusCode, header};
use http_server::{Response, Service};
use std::alloc::{AllocError, Global};

const METRICS_TYPE: &str = "text/plain; version=0.0.4; charset=utf-8";

const HEALTH_TYPE: &str = "text/plain; charset=utf-8";

const METHODS: &str = "GET, HEAD";

/// The metrics and the health of a venue, as a service.
#[derive(Drop)]
pub struct MetricsService<'a, W> {
    /// The venue.
    pub watched: &'a W,
    /// Whether a request was answered.
    pub is_read: bool,
    alloc: Global,
}

impl Health {
    // OK, or Service Unavailable.
    fn status(self) -> StatusCode
        ensures { result ≡ status_of self }
    {
        match self {
            Health::Ready => StatusCode::OK,
            Health::Waiting | Health::Stopped => StatusCode::SERVICE_UNAVAILABLE,
        }
    }

    // In words.
    fn text(self) -> &'static str
        ensures { result.now ≡ health_text self }
    {
        match self {
            Health::Ready => "ok\n",
            Health::Waiting => "the journal waits for room\n",
            Health::Stopped => "the journal has failed\n",
        }
    }
}

impl<'a, W: Watched> MetricsService<'a, W> {
    /// Nobody has read it yet.
    pub fn new(alloc: Global, watched: &'a W) -> MetricsService<'a, W>
        ensures venue { result.watched.now ≡ watched.now }
        ensures unread { result.is_read ≡ false }
    {
        MetricsService {
            watched,
            is_read: false,
            alloc,
        }
    }

    // Gives the figures.
    fn give_metrics(&self, response: &mut Response) -> Result<(), AllocError>
        requires { IsBlank response.old }
        ensures { OnOk result (GivesMetrics (W.shows self.now.watched.now) response.new) }
    {
        let text = write_metrics(self.alloc, &self.watched.figures())?;
        response.add_header(header::CONTENT_TYPE, HeaderValue::from_static(METRICS_TYPE))?;
        response.body.put_slice(&text)
    }

    // Gives the health.
    fn give_health(&self, response: &mut Response) -> Result<(), AllocError>
        requires { IsBlank response.old }
        ensures { OnOk result (GivesHealth (W.is_in self.now.watched.now) response.new) }
    {
        let health = self.watched.health();
        response.status = health.status();
        response.add_header(header::CONTENT_TYPE, HeaderValue::from_static(HEALTH_TYPE))?;
        response.body.put_slice(health.text().as_bytes())
    }

    // Gives what is asked.
    fn give(&self, asked: Asked, response: &mut Response) -> Result<(), AllocError>
        requires { IsBlank response.old }
        ensures { OnOk result (Answers (W.shows self.now.watched.now)
            (W.is_in self.now.watched.now) asked response.new) }
    {
        match asked {
            Asked::Metrics => self.give_metrics(response),
            Asked::Health => self.give_health(response),
            Asked::OtherPath => {
                response.status = StatusCode::NOT_FOUND;
                Ok(())
            }
            Asked::OtherMethod => {
                response.status = StatusCode::METHOD_NOT_ALLOWED;
                response.add_header(header::ALLOW, HeaderValue::from_static(METHODS))
            }
        }
    }
}

impl<'a, W: Watched> Service for MetricsService<'a, W> {
    ghost use Rattle.std.specs.Prelude.{◌≡◌, true};
    ghost use Rattle.http.specs.Request.{head_of};
    ghost use Rattle.http_uri.specs.Uri.{uri_path};
    ghost use Rattle.hx_metrics.specs.Answers.{Answers, asked_by};

    ghost answers = { λ old request response new.
        Answers (W.shows old.watched.now) (W.is_in old.watched.now)
        (asked_by (head_of request).method (uri_path (head_of request).uri)) response
        × (new.watched ≡ old.watched) × (new.is_read ≡ true) };

    fn call(
        &mut self,
        request: &Request<Bytes>,
        response: &mut Response,
    ) -> Result<(), AllocError> {
        let asked = Asked::by(request.method().as_str(), request.uri().path());
        self.give(asked, response)?;
        self.is_read = true;
        Ok(())
    }
}
