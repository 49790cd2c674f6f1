// The plan of an interceptor.
use interceptors::Step;
use plug_in::Interceptor;
use regex_steps::RegexKeys;

/// What an interceptor is built of.
#[derive(Drop)]
pub enum LinkPlan<B = Box<dyn Interceptor + Send>> {
    /// One that sets or removes headers.
    Step(Step),
    /// One that looks for a pattern in the body.
    Regex(RegexKeys),
    /// One that was handed in.
    Boxed(B),
}
