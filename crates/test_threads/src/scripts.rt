//! Scripts, and their output.

/// Two puts under one context, and a put that has seen both.
pub(crate) const FORK: &str = r#"{"ring":{"bits":0,"copies":3,"nodes":[1,2,3]}}
{"put":{"node":1,"key":"61","context":[],"value":"31"}}
{"put":{"node":1,"key":"61","context":[[1,1]],"value":"32"}}
{"put":{"node":2,"key":"61","context":[[1,2]],"value":"33"}}
{"put":{"node":3,"key":"61","context":[[1,2]],"value":"34"}}
{"get":{"node":1,"key":"61"}}
{"put":{"node":1,"key":"61","context":[[1,2],[2,1],[3,1]],"value":"35"}}
{"get":{"node":2,"key":"61"}}
"#;

/// The output of that script.
pub(crate) const FORK_ANSWERS: &str = r#"{"nodes":3,"ranges":1}
{"clock":[[1,1]],"copied":2,"hinted":0,"number":0}
{"clock":[[1,2]],"copied":2,"hinted":0,"number":1}
{"clock":[[1,2],[2,1]],"copied":2,"hinted":0,"number":2}
{"clock":[[1,2],[3,1]],"copied":2,"hinted":0,"number":3}
{"versions":[{"clock":[[1,2],[2,1]],"value":"33"},{"clock":[[1,2],[3,1]],"value":"34"}]}
{"clock":[[1,3],[2,1],[3,1]],"copied":2,"hinted":0,"number":4}
{"versions":[{"clock":[[1,3],[2,1],[3,1]],"value":"35"}]}
"#;

/// Syncs of two replicas; one has a key that the other doesn't have.
pub(crate) const ONE_KEY: &str = r#"{"ring":{"bits":0,"copies":2,"nodes":[1,2]}}
{"put":{"node":1,"key":"61","context":[],"value":"78","lose":[2]}}
{"rehash":{"node":1,"range":0}}
{"sync":{"from":1,"node":2,"range":0}}
{"rehash":{"node":2,"range":0}}
{"sync":{"from":1,"node":2,"range":0}}
{"sync":{"from":1,"node":2,"range":0}}
{"rehash":{"node":2,"range":0}}
{"sync":{"from":1,"node":2,"range":0}}
{"get":{"node":2,"key":"61"}}
"#;

/// The output of that script.
pub(crate) const ONE_KEY_ANSWERS: &str = r#"{"nodes":2,"ranges":1}
{"clock":[[1,1]],"copied":0,"hinted":0,"number":0}
{"hashed":273}
{"cause":"Dirty","refused":10}
{"hashed":273}
{"accepted":1,"asked":3,"known":0,"state":"Finished"}
{"cause":"Dirty","refused":10}
{"hashed":3}
{"accepted":0,"asked":0,"known":0,"state":"Finished"}
{"versions":[{"clock":[[1,1]],"value":"78"}]}
"#;

/// A hint whose owner is down, then up.
pub(crate) const WAITING: &str = r#"{"ring":{"bits":0,"copies":2,"nodes":[1,2,3]}}
{"down":{"node":2}}
{"put":{"node":1,"key":"61","context":[],"value":"78"}}
{"deliver":{"node":3}}
{"get":{"node":2,"key":"61"}}
{"up":{"node":2}}
{"get":{"node":2,"key":"61"}}
{"deliver":{"node":3}}
{"get":{"node":2,"key":"61"}}
{"deliver":{"node":3}}
"#;

/// The output of that script.
pub(crate) const WAITING_ANSWERS: &str = r#"{"nodes":3,"ranges":1}
{"node":2,"up":false}
{"clock":[[1,1]],"copied":0,"hinted":1,"number":0}
{"delivered":0,"known":0,"pending":1}
{"cause":"Down","refused":28}
{"node":2,"up":true}
{"versions":[]}
{"delivered":1,"known":0,"pending":0}
{"versions":[{"clock":[[1,1]],"value":"78"}]}
{"delivered":0,"known":0,"pending":0}
"#;

/// An update that is refused.
pub(crate) const UPDATES: &str = r#"{"put":{"node":1,"key":"61","context":[],"value":"78"}}
{"put":{"node":1,"key":"61","context":[[1,1]],"value":"79"}}
{"put":{"node":1,"key":"61","context":[[1,1]],"value":"79"}}
{"get":{"node":1,"key":"61"}}
"#;

/// The output of that script.
pub(crate) const UPDATES_ANSWERS: &str = r#"{"clock":[[1,1]],"copied":0,"hinted":0,"number":0}
{"clock":[[1,2]],"copied":0,"hinted":0,"number":1}
{"cause":"StaleContext","held":[[[1,2]]],"refused":6}
{"versions":[{"clock":[[1,2]],"value":"79"}]}
"#;

/// A script whose third line is bad.
pub(crate) const BAD_LINE: &str = r#"{"put":{"node":1,"key":"61","context":[],"value":"78"}}
 
{"put":{"node":1}}
{"get":{"node":1,"key":"61"}}
"#;

/// The output of that script.
pub(crate) const BAD_LINE_ANSWERS: &str = r#"{"clock":[[1,1]],"copied":0,"hinted":0,"number":0}
{"cause":"BadLine","line":3,"refused":29}
"#;
