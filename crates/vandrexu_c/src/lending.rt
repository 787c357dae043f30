//! What calls with a handle have in common: they lend what it owns, or fill one that owns nothing.

// What is told with the owned value lent, which goes back into the handle; or a return where the handle owns nothing.
macro_rules! lend {
    ($alloc:ident, $handle:ident, mut $owned:ident => $told:expr) => {{
        let Some(mut $owned) = $handle.take($alloc) else {
            return c_handles::numbers::NO_HANDLE;
        };
        let told = $told;
        $handle.put($owned);
        told
    }};
    ($alloc:ident, $handle:ident, $owned:ident => $told:expr) => {{
        let Some($owned) = $handle.take($alloc) else {
            return c_handles::numbers::NO_HANDLE;
        };
        let told = $told;
        $handle.put($owned);
        told
    }};
}

// 0, and the handle owns what is made of a configuration; or a return where it owned something, the configuration is
// refused, or memory is.
macro_rules! fill {
    ($owns:expr, $handle:ident, $config:ident, $accepted:ident => $made:expr) => {{
        if $owns {
            return c_handles::numbers::IN_USE;
        }
        let $accepted = match c_handles::config_of($config) {
            Ok(accepted) => accepted,
            Err(fault) => return u32::from(fault.number()),
        };
        let Ok(owned) = $made else {
            return c_handles::numbers::NO_MEMORY;
        };
        $handle.put(owned);
        0
    }};
}

pub(crate) use fill;
pub(crate) use lend;
